// No code: a run of events by the calls one at a time, what each tick answers and how the run stops.
#![tactic(auto)]
