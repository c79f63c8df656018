// `app`: whether the new library may replace the old one for one application.
ghost use Rattle.std.specs.Prelude.{◌≡◌, ◌≤◌, List, [], ◌∷◌, length, map, All, OnOk, IfOk, IfErr};
ghost use Rattle.abi_base.specs.declared.fault.NoMemory.TheVariants.{Allocation};
ghost use Rattle.abi_base.specs.Limits.{input_limit};
ghost use Rattle.library_check.specs.Rows.App.{app_asks, app_inputs, app_passes, app_says};
ghost use Rattle.cli_args.specs.Commands.{plain_word};
ghost use Rattle.commands.specs.Commands.{places_of, plain_place};
ghost use Rattle.commands.specs.Faults.{AreReadable, StopsAt};
ghost use Rattle.report.specs.styles.Wanted.{wanted_voices};

use crate::applying;
use crate::applying::AppFiles;
use abi_base::NoMemory;
use cli_args::commands::AppWords;
use commands::{Command, Input, Judgement, Place, Stop, four};
use report::Listener;
use report::styles::{ReportStyle, wanted_listeners};
use std::alloc::Global;

/// `app` for an application and two libraries, with an optional rule file. On no, the listeners of its style hear all breaks.
#[derive(Clone, Copy)]
pub struct App<'a> {
    /// What the arguments request.
    pub words: AppWords<'a>,
}

impl<'a> App<'a> {
    /// The inputs and the sources of their bytes. It fails only if memory runs out.
    pub fn places(&self, alloc: Global) -> Result<Vec<Place<'a>>, NoMemory>
        ensures places { let words = self.now.words in IfOk result (λ places. map plain_place places.items
            ≡ places_of (app_inputs (plain_word words.rules) words.program.now words.old.now words.new.now)) }
        ensures named { IfErr result (λ e. e ≡ Allocation) }
    {
        let rules = Place::named_or_empty(alloc, Input::Rules, self.words.rules);
        Ok(vec![in alloc;
            Place::named(Input::App, self.words.program),
            Place::named(Input::Old, self.words.old),
            Place::named(Input::New, self.words.new),
            rules,
        ]?)
    }
}

impl Command for App<'_> {
    ghost inputs = { λ c. app_inputs (plain_word c.words.rules) c.words.program.now c.words.old.now c.words.new.now };

    ghost says = { λ c voices. app_says (wanted_voices c.words.report voices) };

    ghost passes = { λ c. app_passes };

    fn judge(
        self,
        alloc: Global,
        all: &[Vec<u8>],
        listeners: Vec<Box<dyn Listener>>,
    ) -> Result<Judgement, Stop> {
        let (app, old, new, rules) = four(all);
        let files = AppFiles {
            app,
            old,
            new,
            rules,
        };
        judge_app(alloc, &files, self.words.report, listeners)
    }
}

// The judgement of `app` on the bytes of an application, an old library, a new one and a rule file. Faults are reported in this
// order of the inputs.
fn judge_app(
    alloc: Global,
    files: &AppFiles,
    report: ReportStyle,
    listeners: Vec<Box<dyn Listener>>,
) -> Result<Judgement, Stop>
    requires app_short { length files.now.app.now ≤ input_limit }
    requires old_short { length files.now.old.now ≤ input_limit }
    requires new_short { length files.now.new.now ≤ input_limit }
    requires unheard { All (λ listener. heard listener ≡ []) listeners.items }
    ensures readable { OnOk result (AreReadable app_asks
        (files.now.app.now ∷ files.now.old.now ∷ files.now.new.now ∷ files.now.rules.now ∷ [])) }
    ensures said { IfOk result (λ j. app_says (wanted_voices report (map voice listeners.items))
        (files.now.app.now ∷ files.now.old.now ∷ files.now.new.now ∷ files.now.rules.now ∷ [])
        j.verdict j.untyped j.text.items) }
    ensures stops { IfErr result (StopsAt app_asks app_passes
        (files.now.app.now ∷ files.now.old.now ∷ files.now.new.now ∷ files.now.rules.now ∷ [])) }
{
    let told = wanted_listeners(alloc, listeners, report)?;
    applying::app(alloc, files, told)
}
