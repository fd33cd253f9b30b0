//! The values of schedules, and the replies of calls on a table of such values.
use table_core::reply::Reply;
pub use testkit::reply::PlainReply as Said;

/// A value of a schedule. Values of one class are equal.
#[derive(Clone, Copy)]
pub struct Item {
    pub number: u64,
    pub class: u64,
    pub hash: u64,
}

/// Converts a reply of the machine. Values go by their numbers. Returns `None` for the reply of a length or a walk.
pub fn reply_of_machine(reply: &Reply) -> Option<Said> {
    match reply {
        Reply::Placed(value) => Some(Said::Placed(*value)),
        Reply::Found(entry, value) => Some(Said::Found(*entry, *value)),
        Reply::Refused(value) => Some(Said::Refused(*value)),
        Reply::Some(entry) => Some(Said::Some(*entry)),
        Reply::None => Some(Said::None),
        Reply::Len(_) | Reply::Walk(_) => None,
    }
}

/// Converts the result of an insert into the table.
pub fn reply_of_insert(reply: &Result<(&Item, Option<Box<Item>>), Box<Item>>) -> Said {
    match reply {
        Ok((entry, None)) => Said::Placed(entry.number),
        Ok((entry, Some(back))) => Said::Found(entry.number, back.number),
        Err(back) => Said::Refused(back.number),
    }
}

/// Converts the result of a look-up in the table.
pub fn reply_of_lookup(reply: Option<&Item>) -> Said {
    match reply {
        Some(entry) => Said::Some(entry.number),
        None => Said::None,
    }
}
