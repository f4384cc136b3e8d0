//! What holds of the answers that are stated.
ghost use Rattle.std.specs.Prelude.{ℕ, List, ◌≡◌};
ghost use Rattle.lab_outside.specs.declared.exit.Status.{Status};
ghost use Rattle.layout_command.specs.Answer.{IsAnswer};
ghost use Rattle.lab_main.specs.Input.{OrTooLong};
ghost use Rattle.layout_command.specs.Moves.{IsMovesAnswer};

use layout_roles::smaller_sizes;

/// One status is stated for an input, whichever greatest assignment is given.
pub fn one_status()
    ensures { (input : List ℕ) (first second : Status) (text other : List ℕ) →
        IsAnswer input first text → IsAnswer input second other → first ≡ second }
{
    smaller_sizes();
}

/// A status and a text are stated for every input: roles and a redundancy in their ranges have a greatest
/// layout with its cut, or a cause for which there is none.
pub fn every_configuration_is_answered()
    ensures { (input : List ℕ) → (status : Status) ×
        ((text : List ℕ) × IsAnswer input status text) }
{}

/// One status is stated for an input with `--moves`, whichever of the best assignments is given.
pub fn one_moves_status()
    ensures { (input : List ℕ) (first second : Status) (text other : List ℕ) →
        IsMovesAnswer input first text → IsMovesAnswer input second other → first ≡ second }
{
    smaller_sizes();
}

/// The same for every input of `layout`, too long a one among them. Of a layout with the fewest moves nothing is said.
pub fn some_layout_is_stated()
    ensures { (input : List ℕ) → (status : Status) ×
        ((text : List ℕ) × OrTooLong IsAnswer input status text) }
{
    every_configuration_is_answered();
}
