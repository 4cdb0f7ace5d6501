// What is counted of a stitch: how a chain ended, and what is finished then.
ghost use Rattle.stitch_tally.specs.Tallied.{EndFit, EndListed, LoopFit, LoopListed};

// How a chain ended. Numbers, not an enum: `list_chain` writes them to a list of the host's (`how_of` says which is which).
pub const CLOSED: usize = 0;

pub const TOO_SMALL: usize = 1;

pub const NO_CANDIDATE: usize = 2;

pub const NO_SELECTION: usize = 3;

// A chain at its end: how many vertices it has, how many rounds were taken up to now, how it ended.
#[derive(Clone, Copy)]
pub struct ChainEnd {
    pub verts: usize,
    pub rounds: usize,
    pub how: usize,
}

// What is finished: vertices of the loops, loops, chains, rounds.
#[derive(Clone, Copy)]
pub struct Tally {
    pub done: usize,
    pub loops: usize,
    pub chains: usize,
    pub rounds: usize,
}

// Lists the end of chain number k and how it ended.
pub fn list_chain(chain_ends: &mut [usize], chain_how: &mut [usize], k: usize, e: ChainEnd)
    requires { EndFit chain_ends.old chain_how.old k }
    ensures { EndListed k e chain_ends.old chain_how.old chain_ends.new chain_how.new }
{
    chain_ends[k] = e.rounds;
    chain_how[k] = e.how;
}

// Lists the loop of a closed chain: its vertices without the last. Says what is finished now.
#[tactic(auto, using(basis::specs::Choice::cases), unfolding(crate::specs::Tallied::tally_after, crate::specs::Tallied::ends_after, stitch_run::specs::Stitch::how_of))]
pub fn list_loop(ends: &mut [usize], w: Tally, e: ChainEnd) -> Tally
    requires { LoopFit ends.old w e }
    ensures { LoopListed w e ends.old result ends.new }
{
    let k = w.loops;
    if e.how != CLOSED {
        return Tally {
            done: w.done,
            loops: k,
            chains: w.chains + 1,
            rounds: e.rounds,
        };
    }
    let done = w.done + (e.verts - 1);
    ends[k] = done;
    Tally {
        done,
        loops: k + 1,
        chains: w.chains + 1,
        rounds: e.rounds,
    }
}
