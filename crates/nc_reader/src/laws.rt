//! What follows from the definitions alone.

ghost use Rattle.std.specs.Prelude.{◌≡◌, ◌≤◌, ℕ, List, [], length, Ok};
ghost use Rattle.std.specs.List.{filter_map};
ghost use Rattle.nc_types.specs.Config.{ConfigView};
ghost use Rattle.nc_types.specs.WellFormed.{IsWellFormed};
ghost use Rattle.nc_reader.specs.Configuration.{configuration, parts_of, pieces_of};
ghost use Rattle.nc_reader.specs.Roles.{roles_from};
ghost use Rattle.nc_reader.specs.Things.{ok_of};

/// The law that every configuration which a file's lines make is well formed.
pub fn configurations_are_well_formed()
    ensures { (lines : List (List ℕ)) (c : ConfigView)
        → configuration lines ≡ Ok c → IsWellFormed c }
{}

/// The law that the parts of a file have no more elements than the file has lines.
pub(crate) fn elements_are_few()
    ensures { (lines : List (List ℕ))
        → length (pieces_of (filter_map ok_of (parts_of lines (roles_from [] lines))))
        ≤ length lines }
{}
