// A run counted, and all runs up to the first that is not known.
ghost use Rattle.std.specs.Prelude.{◌≡◌, eqb};
ghost use Rattle.lists.specs.Tests.{pick};
ghost use Rattle.tallying.specs.Tables.{CountAsk, RunCounted, TallyAsk, Tallies};

use crate::{COUNTS_ROOM, HIGHEST_TICK, RunTables};
use limits::RULES_MOST;
use reports::RUN_LENGTH;

// The tick where the verdict is false, and else the other number.
#[tactic(auto, unfolding(lists::specs::Tests::pick))]
fn if_false(verdict: usize, tick: u32, other: u32) -> u32
    ensures { result ≡ pick (eqb verdict 0) tick other }
{
    if verdict == 0 { tick } else { other }
}

impl RunTables {
    // Counts a run, which is known and whose count stands at `place`. What to do does not depend on the verdict, which no processor
    // can foresee: a run that was not false has ticks that change nothing.
    fn count_run(&mut self, rule: usize, verdict: usize, place: usize, tick: u32)
        requires { CountAsk rule verdict place self.old }
        ensures { RunCounted rule verdict tick self.old self.new }
    {
        self.counts[place] += 1;
        let low = if_false(verdict, tick, HIGHEST_TICK);
        let high = if_false(verdict, tick, 0);
        self.earliest[rule] = self.earliest[rule].min(low);
        self.latest[rule] = self.latest[rule].max(high);
        self.sums[rule] += u64::from(high);
    }

    // Counts the runs in front that are known: how many these are. A run is known where its count has a place in the table, among those
    // of its verdict. Both tests are about the place, because the compiler would take a test of the rule's number alone byte by byte.
    pub fn tally(&mut self, runs: &[u8]) -> usize
        requires { TallyAsk runs.now self.old }
        ensures { Tallies runs.now self.new result }
    {
        let n = runs.len() / RUN_LENGTH;
        for i in 0..n {
            let at = RUN_LENGTH * i;
            let rule = le::u32_at(runs, at) as usize;
            let verdict = le::u32_at(runs, at + 4) as usize;
            let place = RULES_MOST * verdict + rule;
            if COUNTS_ROOM <= place {
                return i;
            }
            if place / RULES_MOST != verdict {
                return i;
            }
            let tick = le::u32_at(runs, at + 8);
            self.count_run(rule, verdict, place, tick);
        }
        n
    }
}
