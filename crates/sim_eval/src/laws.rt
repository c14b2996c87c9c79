//! Laws of what a simulation gives. Each is the contract of a function that does nothing.

ghost use Rattle.std.specs.Prelude.{◌≡◌, ◌∷◌, ◌++◌, List, []};
ghost use Rattle.rtl_bits.specs.declared.bit.Bit.{Bit};
ghost use Rattle.rtl_ir.specs.declared.module.Design.{Design};
ghost use Rattle.rtl_ir.specs.declared.module.Module.{Module};
ghost use Rattle.net_model.specs.declared.order.Order.{Order};
ghost use Rattle.net_model.specs.Refine.{run_of};
ghost use Rattle.sim_eval.specs.After.{outputs_after, outputs_of_steps};

/// The output vectors of the steps are those of the run, in either order of time and for every list of input vectors.
#[tactic(auto, using(crate::proofs::Afterwards::steps_run))]
pub fn steps_are_runs()
    ensures run { (order : Order) (d : Design) (m : Module) (stimulus : List (List Bit)) →
        outputs_of_steps order d m [] stimulus ≡ run_of order d m stimulus }
    ensures one_more { (order : Order) (d : Design) (m : Module) (stimulus : List (List Bit)) (x : List Bit) →
        run_of order d m (stimulus ++ x ∷ []) ≡
        run_of order d m stimulus ++ outputs_after order d m (stimulus ++ x ∷ []) ∷ [] }
{}
