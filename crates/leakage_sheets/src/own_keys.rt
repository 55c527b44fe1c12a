ghost use Rattle.std.specs.Prelude.{◌≡◌};
ghost use Rattle.client_registry.specs.WordBytes.{word_bytes};
ghost use Rattle.keyed_fn.specs.KeyedFn.{keyed_fn};
ghost use Rattle.leakage_sheets.specs.OwnKeys.{own_keys};

use client_registry::Word;
use keyed_fn::Keyed;
use search_token::Token;
use std::marker::Model;
use word_keys::{PlaceKey, PreparedMaster};

/// The keys of a word, derived once for all of its values: those of its token, and its place key.
#[derive(Drop)]
pub(crate) struct OwnKeys {
    pub(crate) token: Token,
    pub(crate) place: PlaceKey,
}

impl Model for OwnKeys {
    ghost use Rattle.leakage_sheets.specs.OwnKeys.{OwnKeys as Keys};

    ghost Value = { Keys };

    ghost view = { λ own. record { token = own.token; place = own.place } };
}

impl OwnKeys {
    /// Those of this word.
    pub(crate) fn of<K: Keyed>(master: &PreparedMaster<'_, K>, word: &Word) -> OwnKeys
        ensures { result ≡ own_keys (keyed_fn K.prf K.pad) master.now (word_bytes word.now) }
    {
        OwnKeys {
            token: master.token(word),
            place: master.place_key(word),
        }
    }
}
