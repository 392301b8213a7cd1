// The markup of a picture.
ghost use Rattle.std.specs.Prelude.{◌≡◌};
ghost use Rattle.lab_picture.specs.Tags.{tag};

/// A piece of markup.
#[derive(Clone, Copy)]
pub enum Piece {
    Rect,
    Rounded,
    Filled,
    Class,
    X,
    Y,
    Wide,
    High,
    Close,
    Words,
    EndWords,
    Open,
    WordsEnd,
    Case,
    Core,
    Own,
    Also,
    Stroke,
    Path,
    Corner,
    Titled,
    Group,
    Moving,
    GroupEnd,
    Title,
    TitleEnd,
    OnEnd,
    Rule,
    Picture,
    Scale,
    ScaleEnd,
    PictureEnd,
}

/// The letters of a piece of markup.
#[tactic(auto, unfolding(crate::specs::Tags::tag))]
pub(crate) fn tag(part: Piece) -> &'static [u8]
    ensures { result.now ≡ tag part }
{
    match part {
        Piece::Rect => b"<rect class=\"",
        Piece::Rounded => b"<rect rx=\"5\" class=\"",
        Piece::Filled => b"<rect fill=\"",
        Piece::Class => b"\" class=\"",
        Piece::X => b"\" x=\"",
        Piece::Y => b"\" y=\"",
        Piece::Wide => b"\" width=\"",
        Piece::High => b"\" height=\"",
        Piece::Close => b"\"/>",
        Piece::Words => b"<text class=\"",
        Piece::EndWords => b"<text text-anchor=\"end\" class=\"",
        Piece::Open => b"\">",
        Piece::WordsEnd => b"</text>\n",
        Piece::Case => b"<path class=\"case\" stroke-width=\"",
        Piece::Core => b"<path class=\"core\" stroke=\"",
        Piece::Own => b"<path class=\"own\" d=\"",
        Piece::Also => b"<path class=\"also\" d=\"M",
        Piece::Stroke => b"\" stroke-width=\"",
        Piece::Path => b"\" d=\"",
        Piece::Corner => b"h-9l9 9z\"/>",
        Piece::Titled => b"<g><title>",
        Piece::Group => b"<g>",
        Piece::Moving => b"<g class=\"mv\">",
        Piece::GroupEnd => b"</g>\n",
        Piece::Title => b"<title>",
        Piece::TitleEnd => b"</title>",
        Piece::OnEnd => b" on</title>",
        Piece::Rule => b"<path class=\"rule\" d=\"M40 ",
        Piece::Picture => b"<svg xmlns=\"http://www.w3.org/2000/svg\" viewBox=\"0 0 ",
        Piece::Scale => b"<g transform=\"translate(40 0) scale(",
        Piece::ScaleEnd => b") translate(-40 0)\">",
        Piece::PictureEnd => b"</svg>\n",
    }
}
