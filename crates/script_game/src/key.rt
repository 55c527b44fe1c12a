ghost use Rattle.std.specs.Prelude.{◌≡◌};
ghost use Rattle.script_made_lines.specs.Lines.{made_key};

/// The key of a seed, which is that of the made script: 24 zero bytes, and the seed in 8, high byte first.
pub fn game_key(seed: u32) -> [u8; 32]
    ensures { result ≡ made_key seed }
{
    let mut key = [0; 32];
    key[24..].copy_from_slice(&u64::from(seed).to_be_bytes());
    key
}
