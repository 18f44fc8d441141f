//! The rule of the turn, read out in plain words.
ghost use Rattle.std.specs.Prelude.{Option, ℕ};
ghost use Rattle.atomic_table.specs.Table.{State};
ghost use Rattle.sx_turn.specs.declared.rule.View.{View};
ghost use Rattle.sx_turn.specs.Rules.{Kept};
ghost use Rattle.sx_turn.specs.PlainRule.{IsOneHistory};

use crate::rule::Booked;

/// A law: what every move of every call keeps (`TurnRule`) is the rule in plain words. Tickets differ; one seat at
/// most is in its turn; each number is owned once; the value is in one place and stands for the one list; what any
/// seat has seen is a beginning of that list; and the places that seats keep are exact. The call does nothing.
pub fn rule_in_words<B: Booked>()
    ensures { (fixed : ℕ) (s : State (Option B) (View B.Entry)) → Kept B.stands B.lasting fixed B.who s
        → IsOneHistory B.stands B.lasting fixed B.who s }
{}
