/// A frame that was sent and the reply to it, each with its four length bytes; no reply if the link was cut first.
#[derive(Drop)]
pub struct VaultExchange {
    pub frame: Vec<u8>,
    pub reply: Option<Vec<u8>>,
}
