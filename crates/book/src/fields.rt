// The numbers in a book's header and in its entries.
ghost use Rattle.std.specs.Prelude.{◌≡◌, ◌+◌, ◌≤◌, ◌<◌, length};
ghost use Rattle.book.specs.Layout.{entry_start, cycles_said, year_said, instant_at, offset_at};

use crate::layout::{ENTRY, HEADER};
use base::big_endian;

pub(crate) fn cycles_said(bytes: &[u8]) -> usize
    requires { 4 ≤ length bytes.now }
    ensures { (result ≡ cycles_said bytes.now) × (result < 65536) }
{
    big_endian::read(&bytes[0..2]) as usize
}

pub(crate) fn year_said(bytes: &[u8]) -> u64
    requires { 4 ≤ length bytes.now }
    ensures { result ≡ year_said bytes.now }
{
    big_endian::read(&bytes[2..4])
}

pub(crate) fn instant_at(bytes: &[u8], i: usize) -> u64
    requires { entry_start (1 + i) ≤ length bytes.now }
    ensures { result ≡ instant_at bytes.now i }
{
    let start = HEADER + ENTRY * i;
    let end = start + 8;
    big_endian::read(&bytes[start..end])
}

pub(crate) fn offset_at(bytes: &[u8], i: usize) -> u64
    requires { entry_start (1 + i) ≤ length bytes.now }
    ensures { result ≡ offset_at bytes.now i }
{
    let start = HEADER + ENTRY * i + 8;
    let end = start + 4;
    big_endian::read(&bytes[start..end])
}
