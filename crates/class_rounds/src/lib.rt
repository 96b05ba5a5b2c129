// The rounds: classes are split until a round splits none. A class that splits keeps its number for the part of a chosen member;
// each other part gets a new number, with the class it came from and the round. Lines are worked out again, and compared, only for
// members that look at one whose class is new. Chosen is a member whose lines stay, or the last one: members with more threads come
// later and are told apart later, so the part that keeps its number is most often the larger one.
#![tactic(auto)]

ghost use Rattle.std.specs.Prelude.{◌*◌, ◌≤◌, length};
ghost use Rattle.class_rounds.specs.RoundsDone.{Ready, Refined, LastRound, RoundReached};

use round_steps::{choose_rest, found_classes, list_all, list_next, split_listed};

// The round that was reached, how many classes it has, and whether it is the result's.
#[derive(Drop)]
pub struct Rounds {
    pub round: usize,
    pub classes: usize,
    pub last: bool,
}

// Rounds until one splits no class, at most `limit`: the round behind the limit is worked out and taken back. For each member the set of
// those that look at it has `width` words.
fn split_rounds(
    work: &mut [u32],
    sets: &mut [u64],
    width: usize,
    n: usize,
    m: usize,
    limit: u64,
) -> Rounds
    requires { Ready work.old n m × (width ≤ 8) × (n ≤ 64 * width) × (n * width ≤ length sets.old) }
    ensures { Refined work.old n m work.new result.round result.classes
        × RoundReached work.old n m limit result.round result.last }
{
    dominators::forget_dominators(work, m);
    let mut count = found_classes(work, n);
    let nobody = [0u64; 8];
    choose_rest(work, n, &nobody);
    let mut list = [0u16; 512];
    list_all(&mut list, n);
    let mut k = n;
    let mut round: usize = 0;
    loop {
        round_lines::line_listed(work, sets, width, n, &list, k);
        let next = split_listed(work, n, &list, k, round + 1, count);
        if next == count {
            return Rounds {
                round,
                classes: count,
                last: true,
            };
        }
        if round as u64 == limit {
            former_classes::restore_classes(work, n, count);
            return Rounds {
                round,
                classes: count,
                last: false,
            };
        }
        k = list_next(work, sets, width, n, count, &mut list, k);
        count = next;
        round += 1;
    }
}

// Rounds until one splits no class, at most `limit`.
pub fn refine_to(work: &mut [u32], n: usize, m: usize, limit: u64) -> Rounds
    requires { Ready work.old n m }
    ensures { Refined work.old n m work.new result.round result.classes
        × RoundReached work.old n m limit result.round result.last }
{
    if n <= 64 {
        let mut few = [0u64; 64];
        return split_rounds(work, &mut few, 1, n, m, limit);
    }
    let mut sets = [0u64; 4096];
    split_rounds(work, &mut sets, 8, n, m, limit)
}

// Rounds until one splits no class: there are fewer rounds than members.
pub fn refine(work: &mut [u32], n: usize, m: usize) -> Rounds
    requires { Ready work.old n m }
    ensures { Refined work.old n m work.new result.round result.classes
        × LastRound work.old n m result.round }
{
    refine_to(work, n, m, n as u64)
}
