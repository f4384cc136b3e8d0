//! The walk over what the lines of a transcript say.
ghost use Rattle.std.specs.Prelude.{◌≡◌, option_map, IfSome, IfNone, IfOk};
ghost use Rattle.std.specs.List.{AllByRecursion};
ghost use Rattle.crdt_core.specs.Outcomes.{OnlyWant};
ghost use Rattle.store_model.specs.declared.event.Numbered.{Numbered as NumberedEvent};
ghost use Rattle.text_model.specs.Grammar.{IsAllowed};
ghost use Rattle.audit_model.specs.Heard.{event_at, AscendFrom};
ghost use Rattle.audit_model.specs.Printed.{stages_if, all_prints};
ghost use Rattle.audit_prints.specs.Stages.{staged_of};
ghost use Rattle.audit_prints.specs.Sheets.{AreJudged};
ghost use Rattle.audit_prints.specs.Judged.{GoesOn, Stops};

use crate::prints::{Found, layout_after};
use crate::sheet::{Judged, Sheet};
use crate::stage::Stage;
use audit_model::{Said, Told};
use crdt_core::{Bytes, List, Memory};
use event_places::event_at;
use std::alloc::Global;
use store_model::{Event, Numbered};

// What is staged after an event of which this is told.
fn staged_after(
    alloc: Global,
    stage: Stage,
    event: Option<&Event>,
    told: &Told,
) -> Result<Stage, Memory>
    requires { IfSome event (λ e. IsAllowed e.now) }
    ensures staged { IfOk result
        (λ next. staged_of next ≡ stages_if (staged_of stage) (option_map
        (λ e. e.now) event.entry) told.now) }
    ensures want { OnlyWant result }
{
    match told {
        Told::Accepted(_) => match event {
            Some(event) => stage.after(alloc, event),
            None => Ok(stage),
        },
        Told::Refused(_) => Ok(stage),
    }
}

// Goes past an event's line: what is staged after it, and the sheet of the layout that follows on it; none where that isn't
// lawful.
fn past_event(
    alloc: Global,
    events: &[Numbered],
    stage: Stage,
    sheets: &mut List<Sheet>,
    line: u64,
    name: &Bytes,
    told: &Told,
    saids: &[Said],
) -> Result<Option<Stage>, Memory>
    requires ascending { AscendFrom 0 events.now }
    requires allowed { AllByRecursion (λ (e : NumberedEvent). IsAllowed e.event) events.now }
    ensures staged { IfOk result (λ past. IfSome past (λ next.
        staged_of next ≡ stages_if (staged_of stage) (event_at events.now line name.now) told.now)) }
    ensures on { IfOk result (λ past. IfSome past (λ _.
        GoesOn (staged_of stage) line (event_at events.now line name.now) told.now saids.now sheets.old sheets.new)) }
    ensures stop { IfOk result (λ past. IfNone past
        (Stops (staged_of stage) line (event_at events.now line name.now) told.now saids.now)) }
    ensures want { OnlyWant result }
{
    let event = event_at(events, line, name.as_slice());
    match layout_after(alloc, &stage, event, told, saids)? {
        Found::Nothing => {}
        Found::Lawful(shown) => sheets.push(Sheet {
            line,
            wanted: stage.wanted,
            shown,
        })?,
        Found::Unlawful => return Ok(None),
    }
    Ok(Some(staged_after(alloc, stage, event, told)?))
}

/// Whether each layout that the lines of a transcript print is lawful for what they say was staged, for the events of a schedule.
pub fn judge(alloc: Global, events: &[Numbered], saids: &[Said]) -> Result<Judged, Memory>
    requires ascending { AscendFrom 0 events.now }
    requires allowed { AllByRecursion (λ (e : NumberedEvent). IsAllowed e.event) events.now }
    ensures judged { IfOk result (AreJudged (all_prints events.now saids.now)) }
    ensures want { OnlyWant result }
{
    let mut stage = Stage::new(alloc);
    let mut sheets = List::new(alloc);
    for (i, said) in saids.iter().enumerate() {
        if let Said::Event { line, name, told } = said {
            let rest = &saids[i + 1..];
            match past_event(alloc, events, stage, &mut sheets, *line, name, told, rest)? {
                Some(next) => stage = next,
                None => return Ok(Judged::Unlawful(i as u64 + 2)),
            }
        }
    }
    Ok(Judged::Lawful(sheets))
}
