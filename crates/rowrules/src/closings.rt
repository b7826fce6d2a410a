//! The closings at the end of a run.

use acts::{Act, Answer, Id};
use rowfiles::Row;
use std::alloc::{AllocError, Global};

/// The ids that are open in a run, and whether its log is.
#[derive(Drop)]
struct Opened {
    ids: Vec<Id>,
    has_log: bool,
}

impl Opened {
    /// Records what an act with this answer opens or closes.
    fn take(&mut self, act: &Act<Global>, answer: &Answer<Global>) -> Result<(), AllocError> {
        match (act, answer) {
            (Act::Spawn(id, _), Answer::Started(_)) | (Act::Connect(id, _, _), Answer::Done) => {
                self.ids.push(*id)?;
            }
            (Act::Close(id), _) => self.ids.retain(|other| *other != *id),
            (Act::OpenLog(_, _), Answer::Done) => self.has_log = true,
            (Act::CloseLog, _) => self.has_log = false,
            _ => {}
        }
        Ok(())
    }
}

/// Writes the acts that close what is open after the act at `place`, where that has this answer:
/// the ids in rising order, as they were opened, and then the log.
pub fn push_closings(
    text: &mut String,
    row: &Row,
    place: usize,
    answer: &Answer<Global>,
) -> Result<(), AllocError> {
    let mut opened = Opened {
        ids: Vec::new(*text.allocator()),
        has_log: false,
    };
    for (at, exchange) in row
        .exchanges
        .iter()
        .enumerate()
        .take(place.saturating_add(1))
    {
        let given = if at == place {
            answer
        } else {
            &exchange.answer
        };
        opened.take(&exchange.act, given)?;
    }
    for id in &opened.ids {
        let number = id.0;
        writeln!(text, "Close exp{number}")?;
    }
    if opened.has_log {
        text.push_str("CloseLog\n")?;
    }
    Ok(())
}
