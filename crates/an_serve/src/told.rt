ghost use Rattle.std.specs.Prelude.{◌≡◌, Err, IfOk};
ghost use Rattle.an_serve.specs.Told.{reply_to_write};

use an_answers::{refusal_reply, write_answer};
use an_code::Code;
use an_http::{Allow, Reply};
use an_list::Site;
use an_machine::WriteReply;
use an_shelf::WriteError;
use std::alloc::{AllocError, Global};

/// The reply to a write, at a path with these methods. Its only error is want of memory, also where
/// that kept the write from being done, or from being shown.
pub fn reply_to_write(
    alloc: Global,
    settings: &Site,
    allow: Allow,
    written: Result<WriteReply, WriteError>,
) -> Result<Reply, AllocError>
    ensures reply { IfOk result (λ reply. reply ≡ reply_to_write settings.now allow written) }
    ensures memory { IfOk result (λ _. ¬ (written ≡ Err WriteError.Memory)) }
{
    match written {
        Ok(reply) => write_answer(alloc, settings, allow, &Ok(reply)),
        Err(error) => match error {
            WriteError::Refused(refused) => { write_answer(alloc, settings, allow, &Err(refused)) }
            WriteError::Keeper => refusal_reply(alloc, allow, Code::Keeper),
            WriteError::Memory => Err(AllocError),
        },
    }
}
