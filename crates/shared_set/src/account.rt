//! Accounts of what was placed in a set.
ghost use Rattle.std.specs.Prelude.{◌≡◌, ◌≤◌, ◌++◌, [], ◌∷◌, length, Contains};
ghost use Rattle.table_numbered.specs.Words.{numbered};
ghost use Rattle.table_numbered.specs.History.{IsEntry};
ghost use Rattle.shared_set.specs.Known.{Keeps};
ghost use Rattle.shared_set.specs.Accounts.{DifferByNumber, Settles, ComeOut, end_of};
ghost use Rattle.shared_set.specs.Ending.{Ends};

use crate::cursor::Cursor;
use crate::ending::IntoValues;
use crate::handle::Handle;
use crate::known::Known;
use crate::set::SharedSet;
use std::alloc::Global;
use std::marker::Model;
use std::mem::replace;
use table_cell::Low;
use table_numbered::SetLaw;
use table_slab::{Receipt, Receipts};

/// Receipts of a set, put together, and what is known of the set. It owns nothing of the set, and can be sent to another thread.
///
/// A contract sees which set it is of, the history that is known, and the entries that its receipts are of, in the order in which they were
/// added.
#[derive(Drop)]
pub struct Account<V, L: SetLaw<V>, A: Low + Copy = Global> {
    cursor: Cursor<V, L, A>,
    receipts: Receipts<V>,
    count: usize,
}

/// How a set of which there was an account has ended, with the values that come out of it.
#[derive(Drop)]
pub enum Settled<V, L: SetLaw<V>, A: Low + Copy = Global> {
    /// They are those of the account's entries, each once.
    All(IntoValues<V, L, A>),
    /// They are those of the account's entries, each once, and others.
    More(IntoValues<V, L, A>),
}

impl<V, L: SetLaw<V>, A: Low + Copy> Model for Account<V, L, A> {
    ghost use Rattle.shared_set.specs.Known.{set_of};
    ghost use Rattle.shared_set.specs.Accounts.{AccountView, account_view, IsAccount};

    ghost Value = { AccountView V };

    ghost view = { λ a. account_view (set_of a.cursor) a.cursor.entries.log a.receipts.entries };

    ghost invariant = { λ a. IsAccount L.same L.hash_of a.cursor a.receipts.slab a.receipts.entries a.count };
}

impl<V, L: SetLaw<V>, A: Low + Copy> Account<V, L, A> {
    /// Adds the receipt, and learns what the handle knows. Receipt and handle are of the account's set, and the handle knows the receipt's
    /// entry, as it does after its own insert.
    pub fn add(&mut self, receipt: Receipt<V>, by: &Handle<'_, V, L, A>)
        requires handle { by.now.of ≡ self.old.of }
        requires receipt { receipt.slab ≡ self.old.of.slab }
        requires entry { IsEntry by.now.history (numbered receipt.number receipt.value) }
        ensures of { self.new.of ≡ self.old.of }
        ensures placed { self.new.placed ≡ self.old.placed ++ numbered receipt.number receipt.value ∷ [] }
        ensures known { Keeps self.old.history self.new.history }
        ensures theirs { Keeps by.now.history self.new.history }
    {
        let set = by.set;
        set.join(&mut self.cursor, by.cursor.again());
        let receipts = replace(&mut self.receipts, Receipts::none(&set.slab));
        self.receipts = receipts.with(receipt);
        self.receipts.apart();
        self.count += 1;
    }

    /// Learns what the handle knows. The handle is of the account's set.
    pub fn learn(&mut self, by: &Handle<'_, V, L, A>)
        requires { by.now.of ≡ self.old.of }
        ensures of { self.new.of ≡ self.old.of }
        ensures placed { self.new.placed ≡ self.old.placed }
        ensures known { Keeps self.old.history self.new.history }
        ensures theirs { Keeps by.now.history self.new.history }
    {
        by.set.join(&mut self.cursor, by.cursor.again());
    }

    /// Adds all that another account of this set has.
    pub fn join(&mut self, set: &SharedSet<V, L, A>, other: Account<V, L, A>)
        requires mine { self.old.of ≡ set.now.of }
        requires theirs { other.of ≡ set.now.of }
        ensures of { self.new.of ≡ self.old.of }
        ensures placed { self.new.placed ≡ self.old.placed ++ other.placed }
        ensures known { Keeps self.old.history self.new.history }
        ensures theirs { Keeps other.history self.new.history }
    {
        let Account {
            cursor,
            receipts: theirs,
            count,
        } = other;
        set.join(&mut self.cursor, cursor);
        let receipts = replace(&mut self.receipts, Receipts::none(&set.slab));
        self.receipts = receipts.join(theirs);
        self.receipts.apart();
        self.count += count;
    }

    /// Cuts the account. Returns an account of the first `count` receipts, and one of the others. Both know what this one knew.
    pub fn split(self, count: usize) -> (Self, Self)
        requires { count ≤ length self.placed }
        ensures of { (result.0.of ≡ self.of) × (result.1.of ≡ self.of) }
        ensures known { (result.0.history ≡ self.history) × (result.1.history ≡ self.history) }
        ensures placed { self.placed ≡ result.0.placed ++ result.1.placed }
        ensures count { length result.0.placed ≡ count }
    {
        let Account {
            cursor,
            receipts,
            count: all,
        } = self;
        let (first, others) = receipts.split(count);
        (
            Account {
                cursor: cursor.again(),
                receipts: first,
                count,
            },
            Account {
                cursor,
                receipts: others,
                count: all - count,
            },
        )
    }

    /// Returns what is known: each entry of the account, and what was learned. A handle that hears it finds them.
    pub fn known(&self) -> Known<V, L, A>
        ensures of { result.of ≡ self.now.of }
        ensures known { result.history ≡ self.now.history }
        ensures entries { (e : _) → Contains self.now.placed e → IsEntry self.now.history e }
    {
        Known {
            cursor: self.cursor.again(),
        }
    }

    /// States that no two receipts are of one entry. Nothing happens.
    pub fn apart(&mut self)
        ensures same { self.new ≡ self.old }
        ensures apart { DifferByNumber self.old.placed }
    {
        self.receipts.apart();
    }

    /// Returns how many receipts it has.
    pub fn len(&self) -> usize
        ensures { result ≡ length self.now.placed }
    {
        self.count
    }
}

impl<V, L: SetLaw<V>, A: Low + Copy> SharedSet<V, L, A> {
    /// Returns an account of this set that has no receipts. It knows what a new handle knows.
    pub fn account(&self) -> Account<V, L, A>
        ensures of { result.of ≡ self.now.of }
        ensures keeps { Keeps self.now.known result.history }
        ensures none { result.placed ≡ [] }
    {
        Account {
            cursor: self.cursor(),
            receipts: Receipts::none(&self.slab),
            count: 0,
        }
    }

    /// Takes the set apart, as `into_values` does. The values of the account's entries are among those that come out, each once, and the
    /// answer says whether others are. Each entry that the account knows comes out.
    pub fn settle(self, account: Account<V, L, A>) -> Settled<V, L, A>
        requires of { account.of ≡ self.of }
        ensures ends { Ends L.same self.of (end_of result) }
        ensures settles { Settles account result }
        ensures known { ComeOut account.history (end_of result).left }
    {
        let Account {
            cursor,
            mut receipts,
            count,
        } = account;
        receipts.apart();
        let values = self.into_values();
        values.reaches(cursor);
        if values.values_left() == count {
            Settled::All(values)
        } else {
            Settled::More(values)
        }
    }
}
