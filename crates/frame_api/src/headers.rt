// The check symbols of a VCDU header. The answer is the number of the refusal, 0 for none; a refusal
// writes nothing.
ghost use Rattle.vcdu_header.specs.Promise.{EncodePromise};
ghost use Rattle.frame_api.specs.Headers.{CheckCrossed, RepairCrossed};

use base::refusal;

// Writes the check symbols into the last two bytes.
pub fn pcd_encode_header(header: &mut [u8]) -> u8
    ensures { EncodePromise header.old header.new result }
{
    refusal::code(vcdu_header::encode(header))
}

// Whether the ten symbols are a code word: 1 or 0.
pub fn pcd_check_header(header: &[u8], out: &mut u64) -> u8
    ensures { CheckCrossed header.now result out.old out.new }
{
    match vcdu_header::check(header) {
        Ok(word) => {
            *out = u64::from(word);
            0
        }
        Err(refusal) => refusal.number(),
    }
}

// Puts the code word within two symbols into the header; `out` gets how many symbols were wrong.
pub fn pcd_repair_header(header: &mut [u8], out: &mut u64) -> u8
    ensures { RepairCrossed header.old header.new result out.old out.new }
{
    refusal::pass(vcdu_header::repair(header), out)
}
