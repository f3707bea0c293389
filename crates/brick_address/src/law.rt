//! What follows from the definitions, for whoever reasons with them.

ghost use Rattle.std.specs.Prelude.{◌≡◌, ℕ, ◌<◌, List, length, All, get_or};
ghost use Rattle.cube_values.specs.declared.shape.Size.{Size};
ghost use Rattle.cube_values.specs.Shapes.{bricks_of, IsSoundSize};
ghost use Rattle.brick_address.specs.Addresses.{size_at, AreCoords, AreOffsets, range_in, coord_at, coords_of, HaveAnAddress, IsAnAddress};

/// The coordinates of a cube, and the bricks with offsets in them, are in bijection: coordinates have a
/// brick and offsets, and each brick with offsets has coordinates. Each of the coordinates depends on
/// the brick and its own offset alone.
pub fn coords_and_addresses_agree()
    ensures there { (sizes : List Size) (coords : List ℕ)
        → All IsSoundSize sizes → AreCoords sizes coords → HaveAnAddress sizes coords }
    ensures back { (sizes : List Size) (brick : ℕ) (offsets : List ℕ)
        → All IsSoundSize sizes → brick < bricks_of sizes
        → AreOffsets sizes brick offsets → IsAnAddress sizes brick offsets }
    ensures each { (sizes : List Size) (brick : ℕ) (offsets : List ℕ) (dim : ℕ)
        → AreOffsets sizes brick offsets → dim < length sizes
        → get_or (coords_of sizes brick offsets) dim 0
        ≡ coord_at (size_at sizes dim) (range_in sizes brick dim) (get_or offsets dim 0) }
{}
