//! What calls on tables of numbers return, with numbers in place of values.

use table_generations::atomic_value::AtomicValue;
use table_held::runs::Reply;

/// What a call returns: a `Reply` with the target in place of each value.
#[derive(Clone, Copy, Debug, PartialEq)]
pub enum PlainReply {
    Placed(u64),
    Found(u64, u64),
    Refused(u64),
    Some(u64),
    None,
    Len(usize),
}

/// Returns this reply with the target in place of each value.
pub fn plain_reply<T: AtomicValue<Target = u64>>(reply: &Reply<T>) -> PlainReply {
    match reply {
        Reply::Placed(shown) => PlainReply::Placed(*shown),
        Reply::Found(shown, back) => PlainReply::Found(*shown, *back.deref()),
        Reply::Refused(back) => PlainReply::Refused(*back.deref()),
        Reply::Some(shown) => PlainReply::Some(*shown),
        Reply::None => PlainReply::None,
        Reply::Len(count) => PlainReply::Len(*count),
    }
}
