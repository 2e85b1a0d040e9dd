// What a host in C links, as include/rewzhanok.h declares it: the function of `rewzhanok`, under C's calling convention.
#![tactic(auto)]

ghost use Rattle.std.specs.Prelude.{◌≡◌};
ghost use Rattle.rewzhanok.specs.Entry.{entered, entry_of};

// Runs the commands and writes eleven bytes a line to the answers. Returns how many bytes it wrote, or refuses 12 and writes nothing.
#[unsafe(no_mangle)]
pub extern "C" fn rewzhanok_run(commands: &[u8], answers: &mut [u8]) -> u32
    ensures { entered answers.new result ≡ entry_of commands.now answers.old }
{
    rewzhanok::rewzhanok_run(commands, answers)
}
