use crate::moment::Want;
use geom_rect::Rect;

/// The SDK's `checkout_layer`: by this id the effect gets the pixels of a want, at least those of the request that are in
/// the extent of the want.
#[derive(Clone, Copy, Debug, PartialEq, Eq)]
pub struct Checkout {
    pub id: u32,
    pub want: Want,
    pub request: Rect,
}

/// The SDK's answer to pre-render: what the effect draws for a request, all that it could ever draw, whether it draws
/// points that were not requested (RETURNS_EXTRA_PIXELS), and the layers that it checks out.
#[derive(Debug, Drop)]
pub struct PreRender {
    pub result_rect: Rect,
    pub max_result_rect: Rect,
    pub extra: bool,
    pub checkouts: Vec<Checkout>,
}
