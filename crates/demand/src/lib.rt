// No code: the workshop's third demand, about whatever programs meet the calls' promises.
#![tactic(auto)]
