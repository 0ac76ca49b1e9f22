// A pattern, the rules that it reaches, and the program of the pattern if that is wanted.
ghost use Rattle.std.specs.Prelude.{◌≡◌, IfOk};
ghost use Rattle.rpl_check.specs.Checked.{IsWhole};
ghost use Rattle.rpl_check.specs.Goal.{peg_of};
ghost use Rattle.rpl_core.specs.Table.{bodies_of};
ghost use Rattle.rpl_core.specs.View.{core_of};
ghost use Rattle.rpl_forms.specs.Rows.{rows_of};
ghost use Rattle.rpl_syntax.specs.View.{expr_of};
ghost use Rattle.rosie_inspect.specs.Expansions.{IsExpansion};
ghost use Rattle.rosie_inspect.specs.Expanded.{pattern_text, text_of};
ghost use Rattle.rosie_inspect.specs.Items.{left_of};

use crate::expanding::{Expanding, Item, push_item, push_program_if, push_rules};
use crate::kept_set::KeptSet;
use rpl_check::{Checked, CheckedPeg};
use rpl_core::{NoMemory, Program, reached};
use rpl_syntax::Expr;
use std::alloc::Global;

/// An expansion of the expression `expr`, whose core is `goal`. The core may call the rules in
/// `rules`. The text of the expansion consists of the pattern as it is written, the pattern's core,
/// and the core of each rule that the pattern reaches, in the order of the table. If there is a
/// program, a line for each of its instructions follows.
#[derive(Drop)]
pub struct Expansion {
    expr: Expr,
    rules: Checked,
    goal: CheckedPeg,
    /// For each rule, by its number, whether the pattern reaches it.
    marks: Vec<bool>,
    program: Option<Program>,
}

impl Expansion {
    /// Returns the expansion of a pattern.
    pub fn new(
        alloc: Global,
        expr: Expr,
        rules: Checked,
        goal: CheckedPeg,
        program: Option<Program>,
    ) -> Result<Expansion, NoMemory>
        requires { IsWhole (bodies_of rules) (core_of (peg_of goal)) }
        ensures pattern { IfOk result (λ e. IsExpansion (rows_of rules) (expr_of expr)
            (core_of (peg_of goal)) (pattern_text e)) }
        ensures program { IfOk result (λ e. e.program ≡ program) }
    {
        let table = rules.rules();
        let marks = reached(alloc, table, goal.peg())?;
        Ok(Expansion {
            expr,
            rules,
            goal,
            marks,
            program,
        })
    }

    /// Returns the text of the expansion, none of which has been made yet.
    pub fn text(&self, alloc: Global) -> Result<Expanding<'_>, NoMemory>
        ensures { IfOk result (λ t. left_of t ≡ text_of self.now) }
    {
        let rules = self.rules.rules();
        let marks = self.marks.as_slice();
        let mut todo = Vec::new(alloc);
        push_program_if(&mut todo, &self.program)?;
        push_rules(&mut todo, rules, marks, 0)?;
        push_item(&mut todo, Item::Feed)?;
        push_item(&mut todo, Item::Core(self.goal.peg()))?;
        push_item(&mut todo, Item::Pattern(&self.expr))?;
        let kept = KeptSet::new(alloc)?;
        Ok(Expanding::new(alloc, rules, marks, todo, kept))
    }
}
