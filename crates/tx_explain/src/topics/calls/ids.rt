//! Calls on ids.
ghost use Rattle.std.specs.Prelude.{◌≡◌, map, IsTrue};
ghost use Rattle.std.specs.List.{list_all};
ghost use Rattle.tx_explain.specs.Table.{id_rows};
ghost use Rattle.tx_explain.specs.Topics.{is_formed, row_of};

use crate::topic::Topic;

/// Calls on ids.
pub fn topics() -> &'static [Topic]
    ensures rows { map row_of result.now ≡ id_rows }
    ensures formed { IsTrue (list_all is_formed result.now) }
{
    &TOPICS
}

const TOPICS: [Topic; 4] = [
    Topic {
        word: "setuid",
        also: &[],
        text: "\
setuid: sets its three user ids, or only the effective one.
  form     P setuid V
  V        the id, 0 to 65535
  EINVAL   it is not 0 to 65535
  0        privileged (effective user id 0): real, effective and saved id
           become V
  EPERM    V is neither the real nor the saved user id
  else     0; the effective user id becomes V
  example  2 setuid 5
",
    },
    Topic {
        word: "seteuid",
        also: &[],
        text: "\
seteuid: sets its effective user id.
  form     P seteuid V
  V        the id, 0 to 65535
  EINVAL   it is not 0 to 65535
  EPERM    not privileged (effective user id 0), and V is neither the real nor
           the saved user id
  else     0; the effective user id becomes V
  example  2 seteuid 5
",
    },
    Topic {
        word: "setgid",
        also: &[],
        text: "\
setgid: sets its three group ids, or only the effective one.
  form     P setgid V
  V        the id, 0 to 65535
  EINVAL   it is not 0 to 65535
  0        privileged (effective user id 0): real, effective and saved id
           become V
  EPERM    V is neither the real nor the saved group id
  else     0; the effective group id becomes V
  example  2 setgid 5
",
    },
    Topic {
        word: "setegid",
        also: &[],
        text: "\
setegid: sets its effective group id.
  form     P setegid V
  V        the id, 0 to 65535
  EINVAL   it is not 0 to 65535
  EPERM    not privileged (effective user id 0), and V is neither the real nor
           the saved group id
  else     0; the effective group id becomes V
  example  2 setegid 5
",
    },
];
