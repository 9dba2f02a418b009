// Look first, then store: the asking for a lap's replacement, and its commit. A ticket and a session are lent field by field, and between
// two calls nothing is kept but what is lent.
ghost use Rattle.std.specs.Prelude.{◌≡◌, List, ℕ, length};
ghost use Rattle.geo.specs.Outcome.{left};
ghost use Rattle.lap_session.specs.Session.{ask_lap, bytes_asked, commit_lap, bytes_stored};
ghost use Rattle.exports.specs.SessionState.{lent_session, lent_ticket, TicketLent, CommitLent};

use lap_session::session::{Session, Ticket};

// Fits the laps that a replacement would fit again to the front of the buffer, and writes the whole ticket.
#[unsafe(no_mangle)]
pub extern "C" fn pz_ask_lap(
    recorded: &[u8],
    fitted: &[u8],
    edits: u32,
    lap: usize,
    kinds: &[u8],
    nums: &[f64],
    tolerance: f64,
    buffer: &mut [u8],
    ticket_lap: &mut usize,
    ticket_tolerance: &mut f64,
    ticket_edit: &mut u32,
    ticket_count: &mut usize,
    ticket_next: &mut usize,
) -> u32
    ensures ticket { TicketLent (ask_lap recorded.now fitted.now (lent_session edits) lap kinds.now nums.now tolerance (length buffer.old)) ticket_lap.old ticket_lap.new ticket_tolerance.old ticket_tolerance.new ticket_edit.old ticket_edit.new ticket_count.old ticket_count.new ticket_next.old ticket_next.new result }
    ensures bytes { buffer.new ≡ left (λ (bytes : List ℕ). bytes) buffer.old (bytes_asked (ask_lap recorded.now fitted.now (lent_session edits) lap kinds.now nums.now tolerance (length buffer.old))) }
{
    let session = Session { edits };
    match lap_session::session::ask_lap(
        recorded, fitted, session, lap, kinds, nums, tolerance, buffer,
    ) {
        Ok(t) => {
            *ticket_lap = t.lap;
            *ticket_tolerance = t.tolerance;
            *ticket_edit = t.edit;
            *ticket_count = t.count;
            *ticket_next = t.next;
            0
        }
        Err(cause) => u32::from(cause),
    }
}

// Writes the fitted file with the part in the place of the laps that were fitted again, and the session's edit number.
#[unsafe(no_mangle)]
pub extern "C" fn pz_commit_lap(
    lap: usize,
    tolerance: f64,
    edit: u32,
    count: usize,
    next: usize,
    edits: &mut u32,
    recorded: &[u8],
    fitted: &[u8],
    part: &[u8],
    out: &mut [u8],
    written: &mut usize,
) -> u32
    ensures session { CommitLent (commit_lap (lent_ticket lap tolerance edit count next) (lent_session edits.old) recorded.now fitted.now part.now (length out.old)) edits.old edits.new written.old written.new result }
    ensures bytes { out.new ≡ left (λ (bytes : List ℕ). bytes) out.old (bytes_stored (commit_lap (lent_ticket lap tolerance edit count next) (lent_session edits.old) recorded.now fitted.now part.now (length out.old))) }
{
    let ticket = Ticket {
        lap,
        tolerance,
        edit,
        count,
        next,
    };
    let mut session = Session { edits: *edits };
    match lap_session::session::commit_lap(ticket, &mut session, recorded, fitted, part, out) {
        Ok(n) => {
            *edits = session.edits;
            *written = n;
            0
        }
        Err(cause) => u32::from(cause),
    }
}
