//! Jobs by number, and what a worker calls before and after each.

ghost use Rattle.std.specs.Prelude.{◌≡◌, ℕ, IfOk, OnErr};
ghost use Rattle.rtl_bits.specs.Counts.{risen};

use rtl_bits::{Memory, Steps};
use std::marker::{Send, Sync};

/// Jobs by number. A worker carries a token from job to job, which each job may change, and counts their ticks on a
/// meter. The relations say what a job's answer means; the code that runs jobs knows nothing else of them.
pub trait Job: Sync {
    type Output: Send + Drop;

    type Token: Send;

    // The number is a job's.
    ghost is_job: { Self → ℕ → Type 0 };
    // A worker may have the token.
    ghost token_fits: { Self → Self.Token → Type 0 };
    // The output fits the job of this number.
    ghost output_fits: { Self → ℕ → Self.Output → Type 0 };
    // The job, answered Ok with this output, takes this token to that one with so many ticks.
    ghost does: { Self → ℕ → Self.Output → Self.Token → Self.Token → ℕ → Type 0 };
    // The job, answered Memory, takes this token to that one with so many ticks.
    ghost fails: { Self → ℕ → Self.Token → Self.Token → ℕ → Type 0 };

    /// Does the job of this number.
    fn perform<L: Send>(
        &self,
        number: u32,
        token: &mut Self::Token,
        meter: &mut Steps<L>,
    ) -> Result<Self::Output, Memory>
        requires job { is_job self.now number }
        requires token { token_fits self.now token.old }
        ensures token { token_fits self.now token.new }
        ensures fits { IfOk result (λ o. output_fits self.now number o) }
        ensures ok { IfOk result (λ o. (n : ℕ) ×
            (meter.new ≡ risen meter.old n) × does self.now number o token.old token.new n) }
        ensures err { OnErr result ((n : ℕ) ×
            (meter.new ≡ risen meter.old n) × fails self.now number token.old token.new n) };
}

/// What a worker calls before and after each job.
pub trait Gate: Sync {
    /// The worker is about to do the job.
    fn enter(&self, job: u32);

    /// The worker has done the job.
    fn leave(&self, job: u32);
}

/// A gate that does nothing.
#[derive(Clone, Copy)]
pub struct NoGate;

impl Gate for NoGate {
    fn enter(&self, _job: u32) {}

    fn leave(&self, _job: u32) {}
}
