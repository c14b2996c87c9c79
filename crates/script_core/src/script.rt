//! Scripts.

ghost use Rattle.std.specs.Prelude.{◌≡◌, [], ◌∷◌, ◌++◌, IfOk, OnErr, OnOk};
ghost use Rattle.script_core.specs.declared.word.Word.TheVariants.{Proc};
ghost use Rattle.script_core.specs.Words.{IsScript, default_script, flattens};

use crate::word::Word;
use rtl_bits::{Copied, Memory, Seq};
use std::alloc::Global;
use std::marker::Model;
use std::sync::Arc;

/// The words of a script, in order: 1 to 64 words, of which the first is `proc`, and no other than the second is
/// `flatten`. Copies share them. Contracts see the list.
#[derive(Drop)]
pub struct Script {
    words: Arc<Seq<Word>, Global>,
}

impl Model for Script {
    ghost use Rattle.std.specs.Prelude.{List};
    ghost use Rattle.std.specs.Arc.{arc_value};
    ghost use Rattle.script_core.specs.declared.word.Word.{Word};

    ghost Value = { List Word };

    ghost use Rattle.script_core.specs.Words.{IsScript};

    ghost view = { λ s. arc_value s.words };

    ghost invariant = { λ s. IsScript (arc_value s.words) };
}

impl Script {
    /// The script of the word `proc` alone.
    pub fn make(alloc: Global) -> Result<Script, Memory>
        ensures value { IfOk result (λ script. script ≡ Proc ∷ []) }
    {
        let mut words = Seq::make(alloc);
        words.push(Word::Proc)?;
        Script::of_words(alloc, words)
    }

    /// The script of these words.
    pub(crate) fn of_words(alloc: Global, words: Seq<Word>) -> Result<Script, Memory>
        requires script { IsScript words }
        ensures value { IfOk result (λ script. script ≡ words) }
    {
        let words = Arc::new(alloc, words)?;
        Ok(Script { words })
    }

    /// Puts the word last. After an error the script is as before.
    pub fn push(&mut self, word: Word) -> Result<(), Memory>
        requires script { IsScript (self.old ++ word ∷ []) }
        ensures ok { OnOk result (self.new ≡ self.old ++ word ∷ []) }
        ensures err { OnErr result (self.new ≡ self.old) }
    {
        let mut words = self.words.copy()?;
        words.push(word)?;
        self.words = Arc::new(words.allocator(), words)?;
        Ok(())
    }

    /// Whether the second word is `flatten`.
    pub fn flattens(&self) -> bool
        ensures value { result ≡ flattens self.now }
    {
        self.words.as_slice().get(1) == Some(&Word::Flatten)
    }

    /// The words in order.
    pub fn as_slice(&self) -> &[Word]
        ensures value { result.now ≡ self.now }
        ensures script { IsScript self.now }
    {
        self.words.as_slice()
    }
}

impl Copied for Script {
    fn copy(&self) -> Result<Script, Memory> {
        let words = Arc::try_clone(&self.words)?;
        Ok(Script { words })
    }
}

/// The default script: `proc opt fsm opt memory opt techmap opt`.
#[tactic(auto, using(crate::proofs::ScriptLemmas::scripts))]
pub fn default_script(alloc: Global) -> Result<Script, Memory>
    ensures value { IfOk result (λ script. script ≡ default_script) }
{
    let mut script = Script::make(alloc)?;
    script.push(Word::Opt)?;
    script.push(Word::Fsm)?;
    script.push(Word::Opt)?;
    script.push(Word::Memory)?;
    script.push(Word::Opt)?;
    script.push(Word::Techmap)?;
    script.push(Word::Opt)?;
    Ok(script)
}
