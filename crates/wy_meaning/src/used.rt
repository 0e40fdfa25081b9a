//! What a run uses of each of its instances, kept up beside it.

ghost use Rattle.std.specs.Prelude.{◌≡◌, ◌+◌, ◌-◌, ◌<◌, ◌≤◌, ◌^◌, length, map, slice_get, IfOk, IfSome, Some};
ghost use Rattle.std.specs.Option.{option_copied, option_map};
ghost use Rattle.wy_device.specs.Operation.{member_named};
ghost use Rattle.wy_meaning.specs.Used as used;
ghost use Rattle.wy_meaning.specs.Accounts as changes;

use std::alloc::Global;
use std::marker::Model;
use wy_device::operation::OpName;
use wy_effects::atom::Atom;
use wy_effects::set::EffSet;
use wy_text::fault::AtomName;
use wy_text::text::{Memory, Text};

/// What is kept of one instance: how many of its calls are open, and which atoms were used of it.
#[derive(Drop)]
pub struct Account {
    calls: u64,
    set: EffSet,
}

impl Account {
    /// No call is open, and nothing was used. It takes no memory.
    fn new(alloc: Global) -> Account
        ensures { result ≡ changes.no_account }
    {
        Account {
            calls: 0,
            set: EffSet::empty(alloc),
        }
    }
}

/// The atom of a place was used of an instance, if a call of it is open.
fn note(account: &mut Account, place: Option<usize>)
    requires { IfSome place (λ at. at < 512) }
    ensures { account.new ≡ changes.noted place account.old }
{
    if account.calls == 0 {
        return;
    }
    if let Some(at) = place {
        let _always = account.set.insert(Atom(at as u16));
    }
}

/// What was used so far of each of a run's instances, and of the program behind them (docs/LANGUAGE.md, "Observation"). An atom
/// is its place among the names that it was made with.
#[derive(Drop)]
pub struct Used<'a> {
    atoms: &'a [AtomName],
    accounts: Vec<Account>,
}

impl<'a> Model for Used<'a> {
    ghost use Rattle.std.specs.Prelude.{◌≤◌, length};
    ghost use Rattle.wy_meaning.specs.Used.{UsedState};

    ghost Value = { UsedState };

    ghost view = { λ u. record { atoms = u.atoms.now; accounts = u.accounts.items } };

    ghost invariant = { λ u. length u.atoms.now ≤ 512 };
}

/// The atom of a place was used of each of these instances of which a call is open.
fn note_all(accounts: &mut [Account], place: Option<usize>)
    requires { IfSome place (λ at. at < 512) }
    ensures { accounts.new ≡ map (changes.noted place) accounts.old }
{
    for account in accounts.iter_mut() {
        note(account, place);
    }
}

/// Whether a name is that of a grant's effect.
fn is_atom(name: &AtomName, grant: &Text, member: &str) -> bool
    ensures { result ≡ used.same_atom name.now (record { owner = grant.now; member = member.now }) }
{
    name.owner.as_bytes() == grant.as_bytes() && name.member.as_bytes() == member.as_bytes()
}

/// The first place of a grant's effect among names, counted from a number; `None` exactly where it is not among them.
fn place_of(atoms: &[AtomName], from: usize, grant: &Text, member: &str) -> Option<usize>
    requires { from + length atoms.now ≤ 512 }
    ensures first { result ≡ used.place_from from atoms.now (record { owner = grant.now; member = member.now }) }
    ensures few { IfSome result (λ at. at < from + length atoms.now) }
{
    let (name, others) = atoms.split_first()?;
    if is_atom(name, grant, member) {
        return Some(from);
    }
    place_of(others, from + 1, grant, member)
}

impl<'a> Used<'a> {
    /// Nothing was used so far of this many instances, the program among them as the last. The names are at most 512.
    pub fn new(alloc: Global, atoms: &'a [AtomName], instances: usize) -> Result<Used<'a>, Memory>
        requires few { length atoms.now ≤ 512 }
        ensures made { IfOk result (λ u. u ≡ changes.unused atoms.now instances) }
    {
        let mut accounts = Vec::new(alloc);
        for _ in 0..instances {
            accounts.push(Account::new(alloc))?;
        }
        Ok(Used { atoms, accounts })
    }

    /// A call of an instance is open from here. It takes no memory. More than 2^64 - 1 open calls of an instance are not counted.
    pub fn enter(&mut self, instance: usize)
        ensures counted { ((account : Account) → slice_get self.old.accounts instance ≡ Some account → account.calls < 2 ^ 64 - 1) → self.new ≡ changes.entered instance self.old }
        ensures atoms { self.new.atoms ≡ self.old.atoms }
    {
        if let Some(account) = self.accounts.get_mut(instance) {
            account.calls = account.calls.saturating_add(1);
        }
    }

    /// The latest call of an instance is left. It takes no memory.
    pub fn leave(&mut self, instance: usize)
        ensures { self.new ≡ changes.left instance self.old }
    {
        if let Some(account) = self.accounts.get_mut(instance) {
            account.calls = account.calls.saturating_sub(1);
        }
    }

    /// An operation was done on a grant, or failed: its effect was used of each instance of which a call is open. It takes no
    /// memory.
    pub fn perform(&mut self, grant: &Text, operation: OpName)
        ensures { self.new ≡ changes.performed (record { owner = grant.now; member = member_named operation }) self.old }
    {
        let place = place_of(self.atoms, 0, grant, operation.member());
        note_all(self.accounts.as_mut_slice(), place);
    }

    /// The set of an instance: what was used of it. `None` exactly where there is no such instance.
    pub fn set(&self, instance: usize) -> Option<&EffSet>
        ensures { option_copied result ≡ option_map (λ account. account.set) (slice_get self.now.accounts instance) }
    {
        self.accounts.get(instance).map(|account| &account.set)
    }
}
