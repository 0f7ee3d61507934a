//! The ids of a process: of its user and of its group, each real, effective and saved.
ghost use Rattle.std.specs.Prelude.{◌≡◌, OnErr, Some};
ghost use Rattle.tx_model.specs.Book.{setuid, seteuid, setgid, setegid, id_of, is_privileged, is_own_user, is_own_group};
ghost use Rattle.tx_model.specs.Forms.{Caller};
ghost use Rattle.tx_model.specs.Posts.{may_signal};
ghost use Rattle.tx_model.specs.State.{root_ids};
ghost use Rattle.tx_cred.specs.Cred.{ids_of};
ghost use Rattle.tx_cred.specs.Outcomes.{ids_outcome};

use tx_base::Errno;

/// The ids of a process (POSIX.1-2017, XBD, Real User ID, Effective User ID, Saved Set-User-ID, and
/// the same of the group). Each is 0 to 65,535. A process whose effective user is 0 is privileged,
/// for users and for groups.
#[derive(Clone, Copy)]
pub struct Cred {
    pub real_user: u16,
    pub effective_user: u16,
    pub saved_user: u16,
    pub real_group: u16,
    pub effective_group: u16,
    pub saved_group: u16,
}

impl Cred {
    /// The ids that a booted process has: all 0. Own rule.
    pub fn root() -> Cred
        ensures { ids_of result ≡ root_ids }
    {
        Cred {
            real_user: 0,
            effective_user: 0,
            saved_user: 0,
            real_group: 0,
            effective_group: 0,
            saved_group: 0,
        }
    }

    /// Sets the user's ids (POSIX.1-2017, XSH, setuid()): all three where the process is
    /// privileged, else only the effective one.
    ///
    /// InvalidArgument where the number is not 0 to 65,535. NotPermitted where the process is not
    /// privileged and the id is neither its real nor its saved user. The ids are then as they were.
    pub fn setuid(&mut self, user: i64) -> Result<(), Errno>
        ensures answer { (c : Caller) → c.process.ids ≡ ids_of self.old →
            setuid user c ≡ ids_outcome result (ids_of self.new) c }
        ensures err { OnErr result (self.new ≡ self.old) }
    {
        let Some(user) = computed_id(user) else {
            return Err(Errno::InvalidArgument);
        };
        if self.is_privileged() {
            self.real_user = user;
            self.saved_user = user;
        } else if !self.is_own_user(user) {
            return Err(Errno::NotPermitted);
        }
        self.effective_user = user;
        Ok(())
    }

    /// Sets the effective user (POSIX.1-2017, XSH, seteuid()).
    ///
    /// InvalidArgument where the number is not 0 to 65,535. NotPermitted where the process is not
    /// privileged and the id is neither its real nor its saved user. The ids are then as they were.
    pub fn seteuid(&mut self, user: i64) -> Result<(), Errno>
        ensures answer { (c : Caller) → c.process.ids ≡ ids_of self.old →
            seteuid user c ≡ ids_outcome result (ids_of self.new) c }
        ensures err { OnErr result (self.new ≡ self.old) }
    {
        let Some(user) = computed_id(user) else {
            return Err(Errno::InvalidArgument);
        };
        if !self.is_privileged() && !self.is_own_user(user) {
            return Err(Errno::NotPermitted);
        }
        self.effective_user = user;
        Ok(())
    }

    /// Sets the group's ids (POSIX.1-2017, XSH, setgid()): all three where the process is
    /// privileged, else only the effective one.
    ///
    /// InvalidArgument where the number is not 0 to 65,535. NotPermitted where the process is not
    /// privileged and the id is neither its real nor its saved group. The ids are then as they
    /// were.
    pub fn setgid(&mut self, group: i64) -> Result<(), Errno>
        ensures answer { (c : Caller) → c.process.ids ≡ ids_of self.old →
            setgid group c ≡ ids_outcome result (ids_of self.new) c }
        ensures err { OnErr result (self.new ≡ self.old) }
    {
        let Some(group) = computed_id(group) else {
            return Err(Errno::InvalidArgument);
        };
        if self.is_privileged() {
            self.real_group = group;
            self.saved_group = group;
        } else if !self.is_own_group(group) {
            return Err(Errno::NotPermitted);
        }
        self.effective_group = group;
        Ok(())
    }

    /// Sets the effective group (POSIX.1-2017, XSH, setegid()).
    ///
    /// InvalidArgument where the number is not 0 to 65,535. NotPermitted where the process is not
    /// privileged and the id is neither its real nor its saved group. The ids are then as they
    /// were.
    pub fn setegid(&mut self, group: i64) -> Result<(), Errno>
        ensures answer { (c : Caller) → c.process.ids ≡ ids_of self.old →
            setegid group c ≡ ids_outcome result (ids_of self.new) c }
        ensures err { OnErr result (self.new ≡ self.old) }
    {
        let Some(group) = computed_id(group) else {
            return Err(Errno::InvalidArgument);
        };
        if !self.is_privileged() && !self.is_own_group(group) {
            return Err(Errno::NotPermitted);
        }
        self.effective_group = group;
        Ok(())
    }

    /// Whether the process may take any id.
    fn is_privileged(&self) -> bool
        ensures { result ≡ is_privileged (ids_of self.now) }
    {
        self.effective_user == 0
    }

    /// Whether this is its real or its saved user.
    fn is_own_user(&self, user: u16) -> bool
        ensures { result ≡ is_own_user user (ids_of self.now) }
    {
        self.real_user == user || self.saved_user == user
    }

    /// Whether this is its real or its saved group.
    fn is_own_group(&self, group: u16) -> bool
        ensures { result ≡ is_own_group group (ids_of self.now) }
    {
        self.real_group == group || self.saved_group == group
    }
}

/// Whether a sender of these users may signal a process that has the target's ids
/// (POSIX.1-2017, XSH, kill()): it is privileged, or its real or effective user is the target's
/// real or saved one. The target's effective user counts for nothing.
pub fn may_signal(real_user: u16, effective_user: u16, target: &Cred) -> bool
    ensures { result ≡
        may_signal (Some (record { real = real_user; effective = effective_user }))
        (ids_of target.now) }
{
    effective_user == 0 || target.is_own_user(real_user) || target.is_own_user(effective_user)
}

/// An id that a program computed, where it is one: 0 to 65,535.
fn computed_id(number: i64) -> Option<u16>
    ensures { result ≡ id_of number }
{
    u16::try_from(number).ok()
}
