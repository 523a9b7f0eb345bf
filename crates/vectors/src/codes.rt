// HMAC-SHA-256: the test cases of RFC 4231, 4.2 to 4.8, each whole and in two parts.
ghost use Rattle.std.specs.Prelude.{◌≤◌};

use hash::hmac::{finish, mac, start};
use output_lines::show;

// The first `length` bytes of a code.
fn show_code(rt: &impl Print, name: &[u8], key: &[u8], text: &[u8], length: usize)
    requires { length ≤ 32 }
{
    let whole = mac(key, text);
    let (front, rest) = text.split_at(text.len() / 2);
    let parts = finish(key, start(key).update(front).update(rest));
    show(rt, name, &whole[..length]);
    show(rt, name, &parts[..length]);
}

pub(crate) fn short_keys(rt: &impl Print) {
    let key1 = [0x0bu8; 20];
    show_code(rt, b"hmac-case-1", &key1, b"Hi There", 32);
    show_code(
        rt,
        b"hmac-case-2",
        b"Jefe",
        b"what do ya want for nothing?",
        32,
    );
    let key3 = [0xaau8; 20];
    let text3 = [0xddu8; 50];
    show_code(rt, b"hmac-case-3", &key3, &text3, 32);
    let text4 = [0xcdu8; 50];
    show_code(
        rt,
        b"hmac-case-4",
        b"\x01\x02\x03\x04\x05\x06\x07\x08\x09\x0a\x0b\x0c\x0d\x0e\x0f\x10\x11\x12\x13\x14\x15\x16\x17\x18\x19",
        &text4,
        32,
    );
    let key5 = [0x0cu8; 20];
    show_code(rt, b"hmac-case-5", &key5, b"Test With Truncation", 16);
}

pub(crate) fn long_keys(rt: &impl Print) {
    let key = [0xaau8; 131];
    show_code(
        rt,
        b"hmac-case-6",
        &key,
        b"Test Using Larger Than Block-Size Key - Hash Key First",
        32,
    );
    show_code(
        rt,
        b"hmac-case-7",
        &key,
        b"This is a test using a larger than block-size key and a larger than block-size data. The key needs to be hashed before being used by the HMAC algorithm.",
        32,
    );
}
