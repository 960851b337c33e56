// The writer's two entries. The answer is the number of the refusal, 0 for none; a refusal writes nothing.
ghost use Rattle.writer.specs.Promise.{LeadInPromise, MinorFramePromise};

use base::refusal;

pub fn pcd_write_lead_in(spacing: u64, out: &mut [u8]) -> u8
    ensures { LeadInPromise spacing out.old out.new result }
{
    refusal::code(writer::write_lead_in(spacing, out))
}

pub fn pcd_write_minor_frame(spacing: u64, frame: &[u8], out: &mut [u8]) -> u8
    ensures { MinorFramePromise spacing frame.now out.old out.new result }
{
    refusal::code(writer::write_minor_frame(spacing, frame, out))
}
