//! Where an equation stands among the arms of blocks.

use ls_base::List;

/// The arms around an equation, outermost first: each by its block's clock name and its own
/// number.
#[derive(Debug, Drop)]
pub struct Around {
    pub here: List<(u32, u32)>,
    /// Those around the list of equations that binds the equation's names.
    pub list: List<(u32, u32)>,
}
