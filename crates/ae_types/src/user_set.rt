// The users of a role.
ghost use Rattle.std.specs.Prelude.{◌≡◌, ◌↔◌, ◌∷◌, ◌++◌, [], length, Some, IfOk, IfSome, OnOk, OnErr, IsTrue, Contains};
ghost use Rattle.ae_types.specs.Users.{AllDiffer, without};

use ae_base::{User, UserList};
use indexmap::IndexSet;
use std::alloc::{AllocError, Global};
use std::marker::Model;

/// Users in the order of adding, none twice. Contracts see the list of them.
#[derive(Drop)]
pub struct UserSet {
    users: IndexSet<User>,
}

impl Model for UserSet {
    ghost use Rattle.std.specs.Prelude.{List, ℕ};
    ghost use Rattle.ae_types.specs.Users.{AllDiffer};

    ghost Value = { List (List ℕ) };

    ghost view = { λ a. a.users.keys };

    ghost invariant = { λ a. AllDiffer a.users.keys };
}

impl UserSet {
    /// No users.
    pub fn new(alloc: Global) -> UserSet
        ensures { result ≡ [] }
    {
        UserSet {
            users: IndexSet::new(alloc),
        }
    }

    /// The set of these users, in their order, or nothing where a user stands twice.
    pub fn from_users(alloc: Global, users: UserList) -> Result<Option<UserSet>, AllocError>
        ensures some { IfOk result (λ made. IfSome made (λ set. (set ≡ users) × AllDiffer users)) }
        ensures only { AllDiffer users → IfOk result (λ made. made ≡ Some users) }
    {
        let mut set = UserSet::new(alloc);
        for user in users.into_vec() {
            if set.contains(&user) {
                return Ok(None);
            }
            set.insert(user)?;
        }
        note_differ(&set);
        Ok(Some(set))
    }

    /// How many users it has.
    pub fn len(&self) -> usize
        ensures { result ≡ length self.now }
    {
        self.users.len()
    }

    /// Whether the user is one of them.
    pub fn contains(&self, user: &User) -> bool
        ensures { IsTrue result ↔ Contains self.now user.now }
    {
        self.users.contains(user)
    }

    /// The users, in the order of adding.
    pub fn users(&self) -> &[User]
        ensures users { result.now ≡ self.now }
        ensures differ { AllDiffer self.now }
    {
        self.users.as_slice()
    }

    /// Adds a user that isn't there, at the end.
    pub fn insert(&mut self, user: User) -> Result<(), AllocError>
        requires { Contains self.old user → ⊥ }
        ensures ok { OnOk result (self.new ≡ self.old ++ user ∷ []) }
        ensures err { OnErr result (self.new ≡ self.old) }
    {
        self.users.insert(user)?;
        Ok(())
    }

    /// Removes a user. The others keep their order.
    pub fn remove(&mut self, user: &User)
        ensures { self.new ≡ without user.now self.old }
    {
        self.users.shift_remove(user);
    }

    /// An equal set.
    pub fn copy(&self, alloc: Global) -> Result<UserSet, AllocError>
        ensures { IfOk result (λ set. set ≡ self.now) }
    {
        let mut set = UserSet::new(alloc);
        for user in self.users() {
            set.insert(user.copy(alloc)?)?;
        }
        Ok(set)
    }
}

// The users of a set differ.
fn note_differ(set: &UserSet)
    ensures { AllDiffer set.now }
{
    let _users = set.users();
}
