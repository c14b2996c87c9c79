//! The tree of decisions of a process, in numbers.

use crate::net::{Output, Point};
use rtl_bits::Seq;
use std::marker::Model;

/// A line of a branch: the tree bit at a place gets what a point has. Where that is a tree bit of the same process,
/// its place is given too.
#[derive(Clone, Copy, Debug, PartialEq, Eq)]
pub struct Assign {
    pub at: u32,
    pub from: Point,
    pub tree: Option<u32>,
}

/// What happens where one of the patterns matches; without patterns, wherever it is reached. The assigns act in order,
/// and then the choices do.
#[cycle(choices)]
#[derive(Drop)]
pub struct Branch {
    pub patterns: Seq<Seq<Point>>,
    pub assigns: Seq<Assign>,
    pub choices: Vec<Choice>,
}

/// A choice of the first branch that matches the signal. Where it tests a reset, it is said whether the signal is the
/// inverse of that.
#[cycle(choices)]
#[derive(Drop)]
pub struct Choice {
    pub signal: Seq<Point>,
    pub test: Option<bool>,
    pub branches: Vec<Branch>,
}

/// The tree of a process: so many bits that it may give values to, its root, and the bits that it drives, each with its
/// place among those.
#[derive(Drop)]
pub struct Tree {
    pub width: u32,
    pub root: Branch,
    pub outputs: Seq<Output>,
}

impl Model for Branch {
    ghost use Rattle.flat_net.specs.Choices.{BranchView, branch_depth, choices_of};
    ghost use Rattle.flat_net.specs.ChoiceCode.{coded_branch, branch_falls};

    ghost Value = { BranchView };

    ghost coded = { coded_branch };

    ghost view = { λ b. record { patterns = b.patterns; assigns = b.assigns; choices = choices_of b.choices.items } };

    ghost size = { branch_depth };

    ghost size_decreases = { λ b _. branch_falls b.choices.items };
}

impl Model for Choice {
    ghost use Rattle.flat_net.specs.Choices.{ChoiceView, branches_of, choice_depth};
    ghost use Rattle.flat_net.specs.ChoiceCode.{coded_choice, choice_falls};

    ghost Value = { ChoiceView };

    ghost coded = { coded_choice };

    ghost view = { λ c. record { signal = c.signal; test = c.test; branches = branches_of c.branches.items } };

    ghost size = { choice_depth };

    ghost size_decreases = { λ c _. choice_falls c.branches.items };
}
