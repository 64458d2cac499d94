//! Comments.

ghost use Rattle.std.specs.Prelude.{◌≡◌, ◌≤◌, ◌<◌, ◌^◌, length, IfSome};
ghost use Rattle.smv_text.specs.Comments.{begins_line_comment, begins_comment, ends_here, end_of};

/// Whether `--` stands at the front.
pub fn begins_line_comment(bytes: &[u8]) -> bool
    ensures { result ≡ begins_line_comment bytes.now }
{
    matches!(bytes, [b'-', b'-', ..])
}

/// Whether `/--` stands at the front.
pub fn begins_comment(bytes: &[u8]) -> bool
    ensures { result ≡ begins_comment bytes.now }
{
    matches!(bytes, [b'/', b'-', b'-', ..])
}

fn ends_here(bytes: &[u8]) -> bool
    ensures { result ≡ ends_here bytes.now }
{
    matches!(bytes, [b'-', b'-', b'/', ..])
}

/// How many bytes there are up to and with the first `--/`.
pub fn end_of(bytes: &[u8]) -> Option<usize>
    requires { length bytes.now < 2 ^ 32 }
    ensures within { IfSome result (λ n. n ≤ length bytes.now) }
    ensures end { result ≡ end_of bytes.now }
{
    let mut n = 0;
    while n < bytes.len() {
        if ends_here(&bytes[n..]) {
            return Some(n + 3);
        }
        n += 1;
    }
    None
}
