// Look first, then store, on a lap and a session's edit number among the whole ones. Of an asking the ticket's tolerance is written, and its
// part; its lap and its edit number have to be those that it was asked with, and the count is that of the lap's commands and 1,024 times
// that of the next one's. A commit is lent, where kinds are, the ticket's edit number and both its counts, a word each, and then the part;
// written is the file, and the session has to be one edit further, or as it came where the commit is refused.
use crate::calls::Answer;
use file::words::word_at;
use geo::refusal::Refusal;
use lap_session::session::{Session, Ticket};

// The greatest edit number that can be lent.
const GREATEST: u64 = 4294967295;

// A lap has fewer commands than this.
const COUNTS: usize = 1024;

// The bytes of a ticket that stand before a part.
const TICKET_BYTES: usize = 24;

// What a ticket comes to, of a lap and an edit number.
fn told(ticket: Ticket, lap: usize, edits: u64, out: &mut [f64]) -> Answer {
    if out.len() < 1 || ticket.lap != lap || u64::from(ticket.edit) != edits {
        return None;
    }
    if COUNTS <= ticket.count || COUNTS <= ticket.next {
        return None;
    }
    out[0] = ticket.tolerance;
    Some(Ok(ticket.count + COUNTS * ticket.next))
}

// The parameters, here and below, are those of the recorded call. An `Err` is handed on by a `match`, as in `curves`.
pub fn ask(
    recorded: &[u8],
    fitted: &[u8],
    edits: u64,
    lap: usize,
    kinds: &[u8],
    nums: &[f64],
    tolerance: f64,
    buffer: &mut [u8],
    out: &mut [f64],
) -> Answer {
    if GREATEST < edits {
        return None;
    }
    let session = Session {
        edits: edits as u32,
    };
    match lap_session::session::ask_lap(
        recorded, fitted, session, lap, kinds, nums, tolerance, buffer,
    ) {
        Ok(ticket) => told(ticket, lap, edits, out),
        Err(cause) => Some(Err(cause)),
    }
}

// A commit's answer, where the session is right behind it.
fn answer_at(a: Result<usize, Refusal>, before: u64, after: u64) -> Answer {
    let edited = match a {
        Ok(_) => before < after && after - before == 1,
        Err(_) => after == before,
    };
    if edited { Some(a) } else { None }
}

pub fn commit(
    recorded: &[u8],
    fitted: &[u8],
    edits: u64,
    lap: usize,
    lent: &[u8],
    tolerance: f64,
    out: &mut [u8],
) -> Answer {
    if lent.len() < TICKET_BYTES {
        return None;
    }
    let edit = word_at(lent, 0);
    if GREATEST < edit || GREATEST < edits {
        return None;
    }
    let ticket = Ticket {
        lap,
        tolerance,
        edit: edit as u32,
        count: word_at(lent, 8) as usize,
        next: word_at(lent, 16) as usize,
    };
    let mut session = Session {
        edits: edits as u32,
    };
    let part = &lent[TICKET_BYTES..];
    let a = lap_session::session::commit_lap(ticket, &mut session, recorded, fitted, part, out);
    answer_at(a, edits, u64::from(session.edits))
}
