// What holds of the calls that a caller makes for a job. A function of this file does nothing: its contract is the law.
ghost use Rattle.decode_job.specs.Laws.{JobsLeaveLoads, JobsLeavePictures};
ghost use Rattle.decode_job.specs.inside.JobLaws.{AskingGoesOn, TakingGoesOn, WantingGoesOn, GivingGoesOn, CallsJoin};

use engine_core::Core;
use engine_shared::calls_tell_what_they_add;
use engine_world::Note;
use state_machine::{own_entries_append, steps_append};

/// Each call that is made for a job leaves it its caller's, and such calls follow one another.
pub fn calls_go_on()
    ensures asking { AskingGoesOn }
    ensures taking { TakingGoesOn }
    ensures wanting { WantingGoesOn }
    ensures giving { GivingGoesOn }
    ensures join { CallsJoin }
{
    own_entries_append::<Note>();
    steps_append::<Core>();
}

/// A job that a caller ran leaves it its loads, and their pictures.
pub fn jobs_leave_loads()
    ensures stay { JobsLeaveLoads }
    ensures stay_ready { JobsLeavePictures }
{
    calls_tell_what_they_add();
}
