//! Names that people know from elsewhere: which of the names here is meant, and which calls are
//! left out on purpose.
ghost use Rattle.std.specs.Prelude.{◌≡◌, IfSome};
ghost use Rattle.tx_check.specs.Speaking.{kind_of_names, OfGrammar};

use crate::forms::{Form, form_of_ask, form_of_call, form_of_command, is_among};
use crate::trouble::Names;

/// Calls that are left out, and what there is for them.
static LEFT_OUT: [(&'static str, &'static str); 12] = [
    (
        "exec|execl|execle|execlp|execv|execve|execvp|execvpe|posix_spawn|system",
        "a process runs no program, its steps are what it does",
    ),
    (
        "open|openat|creat|fopen|unlink|rename|link|mkdir|rmdir|chdir|chmod|chown|access|truncate",
        "there are no files; pipe makes descriptors",
    ),
    (
        "stat|fstat|lstat|lseek|seek|ftruncate|ioctl|flock|lockf|sync|fsync|mount|umask",
        "there are no files; pipe makes descriptors",
    ),
    (
        "sleep|usleep|nanosleep|alarm|setitimer|time|gettimeofday|clock_gettime|timer_create",
        "there is no clock; P deliver S is a signal from outside",
    ),
    (
        "pause|sigsuspend|sigwait|sigwaitinfo|sigtimedwait",
        "only waitpid, read and write wait; P deliver S is a signal from outside",
    ),
    (
        "socket|socketpair|bind|listen|accept|connect|send|recv|shutdown|mkfifo",
        "there are no sockets; pipe joins processes",
    ),
    (
        "mmap|brk|sbrk|malloc|calloc|realloc|shmget|shm_open",
        "P map A maps page A",
    ),
    (
        "clone|clone3|pthread_create",
        "there are no threads; P fork C makes the child C",
    ),
    (
        "nice|setpriority|getpriority|sched_yield|yield",
        "the order of the steps says who runs",
    ),
    (
        "select|poll|ppoll|pselect|epoll_wait",
        "after P set_nonblock F on, read and write answer at once",
    ),
    (
        "getuid|geteuid|getgid|getegid",
        "the text of the state has the ids",
    ),
    (
        "setpgid|getpgid|getpgrp|setsid|killpg",
        "there are no groups of processes",
    ),
];

/// Names of calls from elsewhere, and the name here.
static MEANT_CALLS: [(&'static str, &'static str); 21] = [
    (
        "begin|xbegin|sys_begin|tx_begin|start|transaction",
        "sys_xbegin",
    ),
    (
        "commit|xcommit|sys_xcommit|sys_commit|end|xend|sys_end",
        "sys_xend",
    ),
    ("abort|xabort|sys_abort|rollback|cancel", "sys_xabort"),
    ("wait|wait3|wait4|waitid|join", "waitpid"),
    ("signal|sigset|sigvec|rt_sigaction|trap", "sigaction"),
    (
        "sigblock|sigsetmask|rt_sigprocmask|pthread_sigmask",
        "sigprocmask",
    ),
    ("raise|tkill|tgkill", "kill"),
    ("rt_sigqueueinfo", "sigqueue"),
    ("munmap|free", "unmap"),
    ("mprotect", "protect"),
    ("vfork|spawn", "fork"),
    ("_exit|_Exit|exit_group|return", "exit"),
    ("pipe2", "pipe"),
    ("dup3", "dup2"),
    ("fcntl|nonblock", "set_nonblock"),
    ("pread|readv", "read"),
    ("pwrite|writev", "write"),
    ("print|printf|puts|echo|putchar", "console_write"),
    ("poke|set|mov", "store"),
    ("peek|get", "load"),
    ("branch|jmp", "jump"),
];

/// Names of commands from elsewhere, and the name here.
static MEANT_COMMANDS: [(&'static str, &'static str); 10] = [
    ("undo|prev|previous|reverse|rewind|b", "back"),
    ("redo|step|continue|c|f|n", "forward"),
    ("print|show|info|ps|p|dump", "state"),
    ("jump|seek|go|g", "goto"),
    ("list|history|log|ls|l", "steps"),
    ("save|source", "text"),
    ("q|bye|stop", "quit"),
    ("h|man", "help"),
    ("locks|reserved", "owns"),
    ("drop|truncate|clear", "cut"),
];

/// Why the call of that name is left out, and what there is for it.
pub fn left_out(names: Names<'_>, word: &[u8]) -> Option<&'static str>
    ensures { IfSome result (λ reason. kind_of_names names.entry ≡ OfGrammar) }
{
    match names {
        Names::Calls | Names::Instructions | Names::Session => beside(LEFT_OUT.as_slice(), word),
        _ => None,
    }
}

/// The form of the call that people who come from elsewhere mean by a word.
pub fn call_meant(word: &[u8]) -> Option<Form> {
    let name = beside(MEANT_CALLS.as_slice(), word)?;
    form_of_call(name.as_bytes())
}

/// The form of the command of a session that they mean.
pub fn session_meant(word: &[u8]) -> Option<Form> {
    let name = beside(MEANT_COMMANDS.as_slice(), word)?;
    form_of_ask(name.as_bytes())
}

/// The form of the command of a text that they mean.
pub fn command_meant(word: &[u8]) -> Option<Form> {
    let name = beside(MEANT_COMMANDS.as_slice(), word)?;
    form_of_command(name.as_bytes())
}

/// What a table has beside some words of which that is one.
fn beside(table: &'static [(&'static str, &'static str)], word: &[u8]) -> Option<&'static str> {
    let row = table.iter().find(|row| is_among(row.0.as_bytes(), word))?;
    Some(row.1)
}
