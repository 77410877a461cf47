ghost use Rattle.std.specs.Prelude.{◌≡◌};
ghost use Rattle.sessions.specs.Token.{token_of, is_token_of};

use ua_values::UaBytes;

/// The bytes of a session's authentication token (OPC 10000-4, 5.6.2.2): the server's boot number and the session's
/// counter, low byte first.
pub fn token(boot: u16, counter: u32) -> [u8; 6]
    ensures { result ≡ token_of boot counter }
{
    let [b0, b1] = boot.to_le_bytes();
    let [c0, c1, c2, c3] = counter.to_le_bytes();
    [b0, b1, c0, c1, c2, c3]
}

/// Whether a ByteString is the token of the session of this counter.
pub fn is_token_of(boot: u16, counter: u32, bytes: &UaBytes) -> bool
    ensures { result ≡ is_token_of boot counter bytes.now }
{
    match bytes.bytes() {
        Some(bytes) => bytes == token(boot, counter).as_slice(),
        None => false,
    }
}
