// The reader: the head of a record and its lists, or its refusal.
ghost use Rattle.record.specs.Record.{lent, SameRoom, ReadLeft, Read};
ghost use Rattle.record_form.specs.Ready.{FormOk};

use crate::body;
use basis::refuse::Refusal;
use record::head;
use record::head::{Room, Seen};
use record_form::form::Version;

// Reads a record of one version.
fn read_form(bytes: &[u8], v: Version, room: &mut Room) -> Result<Seen, Refusal>
    requires { FormOk v }
    ensures same { SameRoom room.old room.new }
    ensures left { ReadLeft v bytes.now (lent room.old) result (lent room.new) }
{
    head::frame_refusal(bytes, v)?;
    let head = head::head_in(bytes, v);
    head::count_refusal(bytes.len(), head.plan, v)?;
    head::room_refusal(head.plan, room)?;
    body::read_body(bytes, v, head.plan, room);
    Ok(Seen {
        version: v.number,
        head,
    })
}

// Reads a record of the version that it names into the lent lists.
#[tactic(auto, using(crate::proofs::Reading::naming))]
pub fn read(bytes: &[u8], room: &mut Room) -> Result<Seen, Refusal>
    ensures same { SameRoom room.old room.new }
    ensures left { Read bytes.now (lent room.old) result (lent room.new) }
{
    read_form(bytes, head::version_in(bytes), room)
}
