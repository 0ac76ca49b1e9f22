//! The plan of `class`.

ghost use Rattle.std.specs.Prelude.{IfErr};
ghost use Rattle.rosie_prepare.specs.Steps.{IsOwn};
ghost use Rattle.rpl_classes.specs.Classes.{set_named};
ghost use Rattle.rosie_cli.specs.Planned.{class_plan};
ghost use Rattle.rosie_cli.specs.inside.Planning.{IsMade, PlansText};

use crate::plan::Plan;
use rosie_inspect::push_class;
use rosie_run::Unready;
use rpl_classes::{Set, SetFault};
use rpl_print::text_of;
use rpl_text::Chars;
use std::alloc::Global;

/// Plans `class`, which prints the ranges of the named set, one per line. An unknown name is
/// refused.
pub(crate) fn plan_class(alloc: Global, name: &Chars) -> Result<Plan, Unready>
    ensures makes { IsMade result (class_plan name.now (set_named name.now)) }
    ensures own { IfErr result IsOwn }
    ensures text { PlansText result }
{
    match Set::named(alloc, name.as_str()) {
        Ok(set) => {
            let mut text = String::new(alloc);
            push_class(&mut text, &set)?;
            Ok(Plan::Answer(text))
        }
        Err(fault) => match fault {
            SetFault::UnknownClass { .. } => {
                let name = text_of(name);
                let line = format!(in alloc; "rosie: unknown class: {name}\n")?;
                Err(Unready::Refused(line))
            }
            SetFault::NoMemory => Err(Unready::NoMemory),
            SetFault::BadRange { .. } => unreachable!(),
            SetFault::BadSet { .. } => unreachable!(),
        },
    }
}
