// The lines of a text.
ghost use Rattle.std.specs.Prelude.{◌≡◌};
ghost use Rattle.command.specs.Lines.{line_in};

// Line n without its line feed, counted from 0; empty where there is none.
pub fn line(text: &[u8], n: usize) -> &[u8]
    ensures { result.now ≡ line_in text.now n }
{
    text.split(|&b| b == b'\n').nth(n).unwrap_or(&[])
}
