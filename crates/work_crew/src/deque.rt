//! A deque of jobs, of which each that is put is taken at most once.

ghost use Rattle.std.specs.Prelude.{◌≡◌, ℕ, [], ◌∷◌, ◌++◌, ◌≤◌, IfOk, MatchOption, false, true};
ghost use Rattle.crossbeam_deque.specs.Handles.{view, IsPassOf, SameWorker, stealer_deque, worker_deque, worker_flavor};
ghost use Rattle.crossbeam_deque.specs.Handles.{worker_port, worker_view};
ghost use Rattle.crossbeam_deque.specs.Steals.{MatchSteal};
ghost use Rattle.work_crew.specs.Times.{times};
ghost use Rattle.work_crew.specs.Hands.{hand, Took};

use crossbeam_deque::protocol::{Join, Lesson, Outcome, Protocol, Split};
use crossbeam_deque::{Pass, Steal, Stealer, Worker};
use rtl_bits::Memory;
use std::alloc::Global;
use std::collections::LinkedList;

/// What a pass knows: the jobs that were put, whether these are all that will be, and the jobs that were taken with
/// it. It stands in proofs alone; no value of it is made.
pub struct Hand {
    pub fixed: bool,
    pub put: LinkedList<u32>,
    pub taken: LinkedList<u32>,
}

/// The rule: what was taken and what is left is what was put.
pub struct Once;

impl Protocol<u32, Hand> for Once {
    ghost use Rattle.std.specs.Prelude.{[], false};
    ghost use Rattle.work_crew.specs.Hands.{hand, AtMostOnce};

    ghost holds = { AtMostOnce };

    ghost first = { hand false [] [] };

    ghost guest = { hand false [] [] };
}

/// The owner puts jobs.
pub struct Puts;

impl Outcome<u32, Hand> for Puts {
    ghost use Rattle.std.specs.Prelude.{◌≡◌, ◌++◌, false};
    ghost use Rattle.work_crew.specs.Hands.{hand};

    ghost then = { λ v xs w. w ≡ hand false (v.put ++ xs) v.taken };
}

/// Jobs are taken.
pub struct Takes;

impl Outcome<u32, Hand> for Takes {
    ghost use Rattle.work_crew.specs.Hands.{Took};

    ghost then = { Took };
}

/// A pass is made of the owner's, or ends in it.
pub struct Parts;

impl Split<Hand> for Parts {
    ghost use Rattle.std.specs.Prelude.{[], true};
    ghost use Rattle.work_crew.specs.Hands.{hand};

    ghost left = { λ v. hand true v.put v.taken };

    ghost right = { λ v. hand true v.put [] };
}

impl Join<Hand> for Parts {
    ghost use Rattle.std.specs.Prelude.{[], ◌++◌, false};
    ghost use Rattle.work_crew.specs.Hands.{hand};

    ghost both = { λ v w. hand v.fixed v.put (v.taken ++ w.taken) };

    ghost spent = { hand false [] [] };
}

/// What the owner knows once the other passes have ended in its own.
pub struct Total;

impl Lesson<u32, Hand> for Total {
    ghost use Rattle.std.specs.Prelude.{ℕ, ◌≤◌};
    ghost use Rattle.work_crew.specs.Times.{times};

    ghost fact = { λ v items. (k : ℕ) → times k v.taken ≤ times k v.put };
}

/// The end of a deque that one worker has: it puts jobs, and takes the first.
pub type Owner = Worker<u32, Global, Hand, Once>;

/// A deque as other workers see it, who take the first job too.
pub type Thief = Stealer<u32, Global, Hand, Once>;

/// What a worker carries for a deque of another.
pub type Note = Pass<u32, Hand>;

/// An empty deque.
pub fn deque_for(alloc: Global, capacity: usize) -> Result<Owner, Memory>
    ensures ok { IfOk result (λ w. (worker_port w ≡ 0) × (worker_flavor w ≡ 0) × (worker_view w ≡ hand false [] [])) }
{
    let owner = Owner::fifo_as(alloc, capacity)?;
    Ok(owner)
}

/// Puts a job last.
pub fn put(owner: &mut Owner, job: u32) -> Result<(), Memory>
    requires port { worker_port owner.old ≡ 0 }
    requires unfixed { (worker_view owner.old).fixed ≡ false }
    ensures same { SameWorker owner.old owner.new }
    ensures ok { IfOk result (λ r.
        worker_view owner.new ≡ hand false ((worker_view owner.old).put ++ job ∷ []) (worker_view owner.old).taken) }
{
    match owner.push_as::<Puts>(job) {
        Ok(()) => Ok(()),
        Err(_) => Err(Memory),
    }
}

/// Takes the first job of one's own deque.
pub fn take(owner: &mut Owner) -> Option<u32>
    requires { worker_flavor owner.old ≡ 0 }
    ensures same { SameWorker owner.old owner.new }
    ensures rule { MatchOption result (worker_view owner.new ≡ worker_view owner.old)
        (λ x. Took (worker_view owner.old) (x ∷ []) (worker_view owner.new)) }
{
    owner.pop_as::<Takes>()
}

/// Takes the first job of another worker's deque.
pub fn steal(thief: &Thief, note: &mut Note) -> Steal<u32>
    requires { IsPassOf (stealer_deque thief.now) note.old }
    ensures same { IsPassOf (stealer_deque thief.now) note.new }
    ensures rule { MatchSteal result (view note.new ≡ view note.old) (view note.new ≡ view note.old)
        (λ x. Took (view note.old) (x ∷ []) (view note.new)) }
{
    thief.steal_as::<Takes>(note)
}

/// A further pass of the deque. From then on nothing more is put.
pub fn note_of(owner: &mut Owner) -> Note
    requires { worker_port owner.old ≡ 0 }
    ensures same { SameWorker owner.old owner.new }
    ensures view { worker_view owner.new ≡ hand true (worker_view owner.old).put (worker_view owner.old).taken }
    ensures note { IsPassOf (worker_deque owner.old) result × (view result ≡ hand true (worker_view owner.old).put []) }
{
    owner.another::<Parts>()
}

/// Ends a pass: the owner has taken what was taken with it.
pub fn take_in(owner: &mut Owner, note: Note)
    requires { (worker_port owner.old ≡ 0) × IsPassOf (worker_deque owner.old) note }
    ensures same { SameWorker owner.old owner.new }
    ensures put { (worker_view owner.new).put ≡ (worker_view owner.old).put }
    ensures taken { (worker_view owner.new).taken ≡ (worker_view owner.old).taken ++ (view note).taken }
{
    owner.absorb::<Parts>(note);
}

/// Each job was taken at most as often as it was put.
pub fn learn(owner: &mut Owner)
    requires { worker_port owner.old ≡ 0 }
    ensures same { SameWorker owner.old owner.new × (worker_view owner.new ≡ worker_view owner.old) }
    ensures once { (k : ℕ) → times k (worker_view owner.new).taken ≤ times k (worker_view owner.new).put }
{
    owner.len_as::<Total>();
}
