// The elements and attributes of a page that refer to something.
use crawl_kinds::Listed;

/// Elements, those together whose attributes refer alike.
#[derive(Clone, Copy, Debug)]
pub enum Element {
    /// `a` and `area`.
    Anchor,
    /// `link`.
    Link,
    /// `img` and `source`.
    Image,
    /// `video`.
    Video,
    /// `iframe`, `frame`, `embed`, `audio`, `track` and `input`.
    Embedding,
    /// `script`.
    Script,
    /// `style`.
    Style,
    /// `object`.
    Object,
    /// `body`.
    Body,
    /// `meta`.
    Meta,
    /// `base`.
    Base,
    /// Any other, whose `style` alone counts.
    Other,
}

/// Attributes that refer to something, and those that decide how another one refers.
#[derive(Clone, Copy, Debug)]
pub enum Name {
    Href,
    Src,
    Srcset,
    Poster,
    Data,
    Background,
    Content,
    Style,
    Rel,
    HttpEquiv,
}

/// How an attribute of an element refers.
#[derive(Clone, Copy, Debug)]
pub enum Role {
    /// Not at all.
    Nothing,
    /// To a page that a reader may go to.
    Hyperlink,
    /// To what is shown within the page.
    Embedded,
    /// To either, as the words of `rel` say.
    ByRel,
    /// To each of a list of images.
    Candidates,
    /// To the page that takes this one's place.
    Refresh,
    /// As a style sheet does.
    StyleSheet,
}

/// An attribute, its character references replaced.
#[derive(Drop)]
pub struct Attribute {
    pub name: Name,
    pub value: Listed<u8>,
}
