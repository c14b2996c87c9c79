//! Results that are shared by a counter.

ghost use Rattle.std.specs.Prelude.{◌≡◌, IfOk};

use result_cache::Keyed;
use rtl_bits::Memory;
use script_core::Built;
use std::alloc::Global;
use std::marker::Model;
use std::sync::Arc;

/// A result, which all that hold it share. Contracts see the result.
#[derive(Drop)]
pub struct Kept {
    built: Arc<Built, Global>,
}

impl Model for Kept {
    ghost use Rattle.std.specs.Arc.{arc_value};
    ghost use Rattle.script_core.specs.declared.built.Built.{Built};
    ghost use Rattle.desk_core.specs.Codes.{result_code};

    ghost Value = { Built };

    ghost coded = { result_code };

    ghost view = { λ k. arc_value k.built };
}

impl Kept {
    /// A result that is to be shared.
    pub fn make(alloc: Global, built: Built) -> Result<Kept, Memory>
        ensures value { IfOk result (λ kept. kept ≡ built) }
    {
        let built = Arc::new(alloc, built)?;
        Ok(Kept { built })
    }

    /// The result.
    pub fn built(&self) -> &Built
        ensures value { result.now ≡ self.now }
    {
        &self.built
    }
}

impl Keyed for Kept {
    ghost use Rattle.desk_core.specs.Standing.{StandsFor};

    ghost stands_for = { λ built text. StandsFor built text };

    fn share(&self) -> Result<Kept, Memory> {
        let built = Arc::try_clone(&self.built)?;
        Ok(Kept { built })
    }
}
