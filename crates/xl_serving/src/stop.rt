//! Why a run of the plain form stops before its first event.

ghost use Rattle.std.specs.Prelude.{◌≡◌};
ghost use Rattle.xl_serving.specs.Inputs.{of_words_fault, of_config_fault, of_script_fault};

use xl_config::ConfigFault;
use xl_course::Stop;
use xl_model::InputFault;
use xl_script::ScriptFault;
use xl_words::WordsFault;

/// Why a run stops whose words are refused.
pub fn words_stop(fault: WordsFault) -> Stop
    ensures { result ≡ of_words_fault fault }
{
    match fault {
        WordsFault::Usage => Stop::Input(InputFault::Words),
        WordsFault::NoMemory => Stop::NoMemory,
    }
}

/// Why a run stops whose configuration is refused.
pub(crate) fn config_stop(fault: ConfigFault) -> Stop
    ensures { result ≡ of_config_fault fault }
{
    match fault {
        ConfigFault::TooLong => Stop::Input(InputFault::ConfigTooLong),
        ConfigFault::BadToml => Stop::Input(InputFault::ConfigNotToml),
        ConfigFault::BadKey { row, key, rule } => {
            Stop::Input(InputFault::ConfigKey { row, key, rule })
        }
        ConfigFault::NoMemory => Stop::NoMemory,
    }
}

/// Why a run stops whose script is refused.
pub fn script_stop(fault: ScriptFault) -> Stop
    ensures { result ≡ of_script_fault fault }
{
    match fault {
        ScriptFault::BadLine { line, reason } => {
            Stop::Input(InputFault::ScriptLine { line, reason })
        }
        ScriptFault::TooLong => Stop::Input(InputFault::ScriptTooLong),
        ScriptFault::NoMemory => Stop::NoMemory,
    }
}
