// reply: what a call answers: a number, the fields that follow it, and, for definitions, the tables.
#![tactic(auto)]

ghost use Rattle.std.specs.Prelude.{◌≡◌};
ghost use Rattle.error.specs.Numbers.{answer_of};
ghost use Rattle.reply.specs.Reply.{information, reply, answered, Shows, shown_answer, shown_with, shown_by};

use error::Refusal;
use job_policy::JobPolicy;
use records::tables::Tables;

// The fields after the answer. The policy of a job's information stands beside.
#[derive(Clone, Copy)]
pub enum Fields {
    NoFields,
    // 14 and 15: the owner of the level that has the exception, 0 where none.
    OwnerField(u8),
    JobFields {
        killed: bool,
        terminated: bool,
        amount: i64,
        mode: u8,
    },
    ProcessFields {
        code: i64,
        started: bool,
        exited: bool,
        debugger: bool,
        terminated: bool,
    },
    ThreadFields {
        state: u16,
        level: u8,
        suspends: u16,
    },
}

// What definitions say that a call comes to. Its answer is the number, as the scope has it: code decides by a `Result`.
#[derive(Clone, Copy)]
pub struct Reply {
    pub answer: i64,
    pub fields: Fields,
    pub policy: JobPolicy,
    pub tables: Tables,
}

// What an accepted information call tells.
#[derive(Clone, Copy)]
pub struct Information {
    pub fields: Fields,
    pub policy: JobPolicy,
}

impl Information {
    // Fields, and no policy.
    pub fn new(fields: Fields) -> Information
        ensures { result ≡ information fields }
    {
        Information {
            fields,
            policy: JobPolicy::none(),
        }
    }
}

// What the line of a call shows. Its answer is a number, by the format of a line.
#[derive(Clone, Copy)]
pub struct Shown {
    pub answer: i64,
    pub fields: Fields,
    pub policy: JobPolicy,
}

impl Shown {
    // An answer with no field: each refusal, and each accepted call that shows nothing.
    #[tactic(auto, unfolding(crate::specs::Reply::answered, crate::specs::Reply::showing))]
    pub fn answered(answer: i64) -> Shown
        ensures is { result ≡ shown_answer answer }
        ensures shows { Shows (λ t. answered t answer) result }
    {
        Shown {
            answer,
            fields: Fields::NoFields,
            policy: JobPolicy::none(),
        }
    }

    // An answer with its fields.
    #[tactic(auto, unfolding(crate::specs::Reply::reply, crate::specs::Reply::showing))]
    pub fn with_fields(answer: i64, fields: Fields) -> Shown
        ensures is { result ≡ shown_with answer fields }
        ensures shows { Shows (λ t. reply t answer fields) result }
    {
        Shown {
            answer,
            fields,
            policy: JobPolicy::none(),
        }
    }

    // What a call shows that tells nothing, by its outcome.
    pub fn settled(outcome: Result<(), Refusal>) -> Shown
        ensures { result ≡ shown_answer (answer_of outcome) }
    {
        Shown::answered(error::answer_of(outcome))
    }

    // What an information call shows, by its outcome.
    pub fn informed(outcome: Result<Information, Refusal>) -> Shown
        ensures { result ≡ shown_by outcome }
    {
        match outcome {
            Ok(told) => Shown {
                answer: 0,
                fields: told.fields,
                policy: told.policy,
            },
            Err(refusal) => Shown::answered(refusal.number()),
        }
    }
}
