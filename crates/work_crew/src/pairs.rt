//! A call for each place of two slices, in threads beside each other.

ghost use Rattle.std.specs.Prelude.{◌≡◌, length};
ghost use denote.Param.Send.{IsSync, IsSend};
ghost use Rattle.work_crew.specs.Pairs.{AllReady, AcceptsPair, AcceptsPairs, ChangesPair, ChangesPairs};

use std::marker::{Send, Sync};
use std::thread::{Threads, join_mut};

/// One call.
fn at_pair<S, T, F: Fn(&mut S, &mut T)>(f: &F, s: &mut S, t: &mut T)
    requires { AcceptsPair F.Fn f.now s.old t.old }
    ensures { ChangesPair F.Fn f.now s.old s.new t.old t.new }
{
    f(s, t);
}

/// Calls `f` at each place of the two slices. The calls run in threads beside each other; where a thread cannot be
/// started, the calling thread makes that call itself. It returns when each call has.
#[cycle(pairs)]
pub fn for_each_pair<R: Threads + Sync, S: Send, T: Send, F: Fn(&mut S, &mut T) + Sync>(
    rt: &R,
    f: &F,
    slots: &mut [S],
    tokens: &mut [T],
)
    requires ready { AllReady (AcceptsPair F.Fn f.now) slots.old tokens.old }
    requires equal_lengths { length slots.old ≡ length tokens.old }
    ensures { ChangesPairs F.Fn f.now slots.old slots.new tokens.old tokens.new }
{
    if tokens.is_empty() {
        return;
    }
    if tokens.len() == 1 {
        at_pair(f, &mut slots[0], &mut tokens[0]);
        return;
    }
    let half = tokens.len() / 2;
    let (front, back) = tokens.split_at_mut(half);
    let (front_slots, back_slots) = slots.split_at_mut(half);
    both_halves(rt, f, front_slots, front, back_slots, back);
}

/// The calls of two halves, beside each other. The closures require just what this function is given.
#[cycle(pairs)]
fn both_halves<R: Threads + Sync, S: Send, T: Send, F: Fn(&mut S, &mut T) + Sync>(
    rt: &R,
    f: &F,
    front_slots: &mut [S],
    front: &mut [T],
    back_slots: &mut [S],
    back: &mut [T],
)
    requires front { AcceptsPairs F.Fn f.now front_slots.old front.old }
    requires back { AcceptsPairs F.Fn f.now back_slots.old back.old }
    ensures front { ChangesPairs F.Fn f.now front_slots.old front_slots.new front.old front.new }
    ensures back { ChangesPairs F.Fn f.now back_slots.old back_slots.new back.old back.new }
{
    let mut one = ||
        requires { IsSync R.row × IsSync F.row × IsSend S.row × IsSend T.row ×
            AcceptsPairs F.Fn f.now front_slots.now front.now }
        ensures { ChangesPairs F.Fn f.entry.now
            front_slots.entry.now front_slots.exit.now front.entry.now front.exit.now }
    { for_each_pair(rt, f, front_slots, front) };
    let mut two = ||
        requires { IsSync R.row × IsSync F.row × IsSend S.row × IsSend T.row ×
            AcceptsPairs F.Fn f.now back_slots.now back.now }
        ensures { ChangesPairs F.Fn f.entry.now
            back_slots.entry.now back_slots.exit.now back.entry.now back.exit.now }
    { for_each_pair(rt, f, back_slots, back) };
    join_mut(rt, &mut one, &mut two);
}
