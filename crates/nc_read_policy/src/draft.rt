//! A clause as the lines of its block so far leave it.

ghost use Rattle.std.specs.Prelude.{◌≡◌, List, [], ◌++◌, map, Ok, OnOk};
ghost use Rattle.nc_types.specs.Config.{clause_view};
ghost use Rattle.nc_lines.specs.Lines.{words_of};
ghost use Rattle.nc_lines.specs.Parts.{Numbered};
ghost use Rattle.nc_read_policy.specs.Readings.{statement_view};
ghost use Rattle.nc_read_policy.specs.Drafts.{empty_part, part_of, part_with, finished, Takes};

use crate::setting::{Setting, read_setting};
use crate::values::asns;
use nc_lines::cut::cut_word;
use nc_lines::statement::Reading;
use nc_types::{Clause, ConfigFault, Reference, SetCommunity, Text};
use std::alloc::{AllocError, Global};

/// What the lines so far make.
#[derive(Drop)]
pub(crate) struct Draft {
    clause: Clause,
    // The lines of the statements.
    lines: Vec<u32>,
}

// Refers to each name among the words, in order, from this line.
fn refer(
    alloc: Global,
    lists: &mut Vec<Reference>,
    line: u32,
    names: &[u8],
) -> Result<(), AllocError>
    ensures { OnOk result (lists.new.items ≡ lists.old.items
        ++ map (λ name. record { name = name; line = line }) (words_of names.now)) }
{
    let mut rest = names;
    'names: while let Some((word, behind)) = cut_word(rest) {
        let name = Text::new(alloc, word)?;
        lists.push(Reference { name, line })?;
        rest = behind;
    }
    Ok(())
}

impl Draft {
    /// The clause of this name and number that no line has set.
    pub(crate) fn new(alloc: Global, map: Text, number: u16) -> Draft
        ensures { part_of result ≡ empty_part map number }
    {
        let clause = Clause {
            map,
            number,
            permit: false,
            lists: Vec::new(alloc),
            community_lists: Vec::new(alloc),
            preference: None,
            metric: None,
            prepend: Vec::new(alloc),
            origin: None,
            communities: None,
            element: 0,
        };
        Draft {
            clause,
            lines: Vec::new(alloc),
        }
    }

    // Lets the clause have what a statement says.
    fn apply(&mut self, alloc: Global, line: u32, setting: Setting<'_>) -> Result<(), AllocError>
        ensures { OnOk result (part_of self.new
            ≡ part_with (part_of self.old) line (statement_view setting.entry)) }
    {
        self.lines.push(line)?;
        match setting {
            Setting::Opens(header) => self.clause.permit = header.permit,
            Setting::Matches(names) => refer(alloc, &mut self.clause.lists, line, names)?,
            Setting::MatchesCommunities(names) => {
                refer(alloc, &mut self.clause.community_lists, line, names)?
            }
            Setting::Preference(number) => self.clause.preference = Some(number),
            Setting::Metric(number) => self.clause.metric = Some(number),
            Setting::Prepend(numbers) => self.clause.prepend = asns(alloc, numbers)?,
            Setting::Origin(code) => self.clause.origin = Some(code),
            Setting::Communities(set, additive) => {
                let values = set.communities(alloc)?;
                self.clause.communities = Some(SetCommunity { values, additive });
            }
        }
        Ok(())
    }

    /// One more line, of this number.
    ///
    /// # Errors
    ///
    /// The line, where it is faulty; memory that runs out.
    pub(crate) fn take(&mut self, alloc: Global, line: u32, text: &[u8]) -> Result<(), ConfigFault>
        ensures { (block : List Numbered) → Takes result (part_of self.old) (part_of self.new)
            (record { line = line; text = text.now }) block }
    {
        match read_setting(text) {
            Reading::Outside => Ok(()),
            Reading::Faulty(cause) => Err(ConfigFault::Bad { line, cause }),
            Reading::Says(setting) => {
                self.apply(alloc, line, setting)?;
                Ok(())
            }
        }
    }

    /// The clause where no line is left, and the lines.
    #[tactic(auto, unfolding(crate::specs::Drafts::finished))]
    pub(crate) fn finish(self) -> (Clause, Vec<u32>)
        ensures { finished (part_of self) []
            ≡ Ok (record { clause = clause_view result.0; lines = result.1.items }) }
    {
        (self.clause, self.lines)
    }
}
