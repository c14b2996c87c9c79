//! The sorts of tokens that the grammar tells apart.

ghost use Rattle.std.specs.Prelude.{◌≡◌, IfSome};
ghost use Rattle.std.specs.Str.{bytes_eq};
ghost use Rattle.rtl_lex.specs.Sorts.{
  module_word,
  option_word,
  process_word,
  event_word,
  word_sort,
  mark_sort,
  sort_of,
};

use crate::token::TokenKind;

/// What a token is to the grammar: which word, which mark, or which kind.
#[derive(Clone, Copy, Debug, PartialEq, Eq)]
pub enum Sort {
    Autoidx,
    Attribute,
    Module,
    Parameter,
    Wire,
    Memory,
    Cell,
    Connect,
    End,
    Width,
    Offset,
    Size,
    Input,
    Output,
    Inout,
    Upto,
    Signed,
    Process,
    Assign,
    Switch,
    Case,
    Sync,
    Update,
    Memwr,
    Low,
    High,
    Posedge,
    Negedge,
    Edge,
    Global,
    Init,
    Always,
    /// A word that no statement knows.
    Other,
    /// `[`
    OpenIndex,
    /// `]`
    CloseIndex,
    /// `{`
    OpenBrace,
    /// `}`
    CloseBrace,
    /// `:`
    Colon,
    /// `,`
    Comma,
    Id,
    Value,
    Int,
    Chars,
    Line,
    /// The end of the text, behind the end of line that ends its last statement.
    Finish,
    /// A byte at which no token begins, or a string with a fault.
    Bad,
}

/// Whether two texts are the same.
fn same(text: &[u8], word: &[u8]) -> bool
    ensures { result ≡ bytes_eq text.now word.now }
{
    text == word
}

/// The words that begin a statement of a file, a module or a cell.
#[tactic(auto, unfolding(crate::specs::Sorts::module_word))]
fn module_word(text: &[u8]) -> Option<Sort>
    ensures { result ≡ module_word text.now }
{
    if same(text, b"autoidx") {
        Some(Sort::Autoidx)
    } else if same(text, b"attribute") {
        Some(Sort::Attribute)
    } else if same(text, b"module") {
        Some(Sort::Module)
    } else if same(text, b"parameter") {
        Some(Sort::Parameter)
    } else if same(text, b"wire") {
        Some(Sort::Wire)
    } else if same(text, b"memory") {
        Some(Sort::Memory)
    } else if same(text, b"cell") {
        Some(Sort::Cell)
    } else if same(text, b"connect") {
        Some(Sort::Connect)
    } else if same(text, b"end") {
        Some(Sort::End)
    } else {
        None
    }
}

/// The words that a wire, a memory or a parameter may have.
#[tactic(auto, unfolding(crate::specs::Sorts::option_word))]
fn option_word(text: &[u8]) -> Option<Sort>
    ensures { result ≡ option_word text.now }
{
    if same(text, b"width") {
        Some(Sort::Width)
    } else if same(text, b"offset") {
        Some(Sort::Offset)
    } else if same(text, b"size") {
        Some(Sort::Size)
    } else if same(text, b"input") {
        Some(Sort::Input)
    } else if same(text, b"output") {
        Some(Sort::Output)
    } else if same(text, b"inout") {
        Some(Sort::Inout)
    } else if same(text, b"upto") {
        Some(Sort::Upto)
    } else if same(text, b"signed") {
        Some(Sort::Signed)
    } else {
        None
    }
}

/// The words of a process.
#[tactic(auto, unfolding(crate::specs::Sorts::process_word))]
fn process_word(text: &[u8]) -> Option<Sort>
    ensures { result ≡ process_word text.now }
{
    if same(text, b"process") {
        Some(Sort::Process)
    } else if same(text, b"assign") {
        Some(Sort::Assign)
    } else if same(text, b"switch") {
        Some(Sort::Switch)
    } else if same(text, b"case") {
        Some(Sort::Case)
    } else if same(text, b"sync") {
        Some(Sort::Sync)
    } else if same(text, b"update") {
        Some(Sort::Update)
    } else if same(text, b"memwr") {
        Some(Sort::Memwr)
    } else {
        None
    }
}

/// The words behind `sync`.
#[tactic(auto, unfolding(crate::specs::Sorts::event_word))]
fn event_word(text: &[u8]) -> Option<Sort>
    ensures { result ≡ event_word text.now }
{
    if same(text, b"low") {
        Some(Sort::Low)
    } else if same(text, b"high") {
        Some(Sort::High)
    } else if same(text, b"posedge") {
        Some(Sort::Posedge)
    } else if same(text, b"negedge") {
        Some(Sort::Negedge)
    } else if same(text, b"edge") {
        Some(Sort::Edge)
    } else if same(text, b"global") {
        Some(Sort::Global)
    } else if same(text, b"init") {
        Some(Sort::Init)
    } else if same(text, b"always") {
        Some(Sort::Always)
    } else {
        None
    }
}

/// The words that most lines of a text begin with.
#[tactic(auto, using(crate::proofs::CommonWords::common_words))]
fn common_word(text: &[u8]) -> Option<Sort>
    ensures { IfSome result (λ sort. sort ≡ word_sort text.now) }
{
    if same(text, b"connect") {
        Some(Sort::Connect)
    } else if same(text, b"parameter") {
        Some(Sort::Parameter)
    } else if same(text, b"end") {
        Some(Sort::End)
    } else if same(text, b"cell") {
        Some(Sort::Cell)
    } else if same(text, b"wire") {
        Some(Sort::Wire)
    } else if same(text, b"width") {
        Some(Sort::Width)
    } else if same(text, b"assign") {
        Some(Sort::Assign)
    } else {
        None
    }
}

#[tactic(auto, unfolding(crate::specs::Sorts::word_sort))]
fn word_sort(text: &[u8]) -> Sort
    ensures { result ≡ word_sort text.now }
{
    if let Some(sort) = common_word(text) {
        return sort;
    }
    if let Some(sort) = module_word(text) {
        sort
    } else if let Some(sort) = option_word(text) {
        sort
    } else if let Some(sort) = process_word(text) {
        sort
    } else if let Some(sort) = event_word(text) {
        sort
    } else {
        Sort::Other
    }
}

#[tactic(auto, unfolding(crate::specs::Sorts::mark_sort))]
fn mark_sort(text: &[u8]) -> Sort
    ensures { result ≡ mark_sort text.now }
{
    if same(text, b"[") {
        Sort::OpenIndex
    } else if same(text, b"]") {
        Sort::CloseIndex
    } else if same(text, b"{") {
        Sort::OpenBrace
    } else if same(text, b"}") {
        Sort::CloseBrace
    } else if same(text, b":") {
        Sort::Colon
    } else {
        Sort::Comma
    }
}

/// The sort of a token of this kind and text.
pub fn sort_of(kind: TokenKind, text: &[u8]) -> Sort
    ensures { result ≡ sort_of kind text.now }
{
    match kind {
        TokenKind::Word => word_sort(text),
        TokenKind::Mark => mark_sort(text),
        TokenKind::Id => Sort::Id,
        TokenKind::Value => Sort::Value,
        TokenKind::Int => Sort::Int,
        TokenKind::Chars => Sort::Chars,
        TokenKind::Line => Sort::Line,
    }
}
