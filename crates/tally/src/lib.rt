// The tally: one count for each answer number (RULES 16). It stands beside the state.
#![tactic(auto)]

ghost use Rattle.std.specs.Prelude.{◌≡◌};
ghost use Rattle.tally.specs.Counts.{counted as countedBy};

// How many answer numbers there are; the first is 0.
pub const ANSWERS: usize = 22;

#[repr(C)]
#[derive(Clone, Copy)]
pub struct Tally {
    pub counts: [u32; ANSWERS],
}

// The tally after one more message with this answer. A full count stays, and a number that is no answer counts nothing.
pub fn counted(mut t: Tally, answer: u8) -> Tally
    ensures { result ≡ countedBy t answer }
{
    let i = usize::from(answer);
    if i < ANSWERS {
        t.counts[i] = t.counts[i].saturating_add(1);
    }
    t
}

// The same in the tally that is lent.
pub fn count(t: &mut Tally, answer: u8)
    ensures { t.new ≡ countedBy t.old answer }
{
    *t = counted(*t, answer);
}
