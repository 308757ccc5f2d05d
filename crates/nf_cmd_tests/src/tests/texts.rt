//! Real text in several scripts, as people write it: the letters are composed where Unicode has them composed.

/// Accents over and under Latin letters.
pub(super) const FRENCH: &str =
    "Où étiez-vous l'été dernier ? À Besançon, près du fleuve : le maître et ses élèves y \
    dessinaient la forêt, et les chênes où nichent les hérons. « Ça suffit ! » s'écria le \
    garçon ; mais, déçu, il s'arrêta là. Noël approche, et l'aïeule rêve déjà d'une crème \
    brûlée.";

/// Two marks on one letter.
pub(super) const VIETNAMESE: &str =
    "Mỗi buổi sáng, người bán hàng rong đi qua những con phố nhỏ của Hà Nội. Tiếng rao vọng \
    khắp ngõ, và lũ trẻ chạy theo để mua một chiếc bánh nướng. Chiều đến, ông lão ngồi dưới \
    gốc đa kể chuyện thuở trước, khi dòng sông còn đầy thuyền buồm trắng.";

/// Syllables of two and three letters.
pub(super) const KOREAN: &str =
    "아침마다 할머니는 시장에 나가 싱싱한 나물을 고르셨다. 값을 묻는 목소리, 닭이 우는 소리, 그리고 갓 구운 떡 냄새가 골목을 가득 채웠다. 우리는 늦잠을 자다가 \
    부엌에서 나는 소리에 깨곤 했다.";

/// Vowel signs, and letters with a hamza.
pub(super) const ARABIC: &str =
    "في الصباحِ الباكرِ يَذهَبُ الأولادُ إلى المدرسةِ، ويَقرَؤونَ آياتٍ من الشِّعرِ القديمِ. \
    سألَ المعلِّمُ أحمدَ: أينَ كتابُكَ؟ فأجابَ: هو على الطاولةِ، أمّا دفتري فقد نَسيتُه في \
    البيتِ.";

/// Vowel signs, and letters with a nukta, which composition leaves apart.
pub(super) const HINDI: &str =
    "हर सुबह लड़के नदी के किनारे दौड़ते हैं और बड़े पेड़ के नीचे पढ़ते हैं। मेज़ पर फलों की टोकरी रखी \
    है, और फ़र्श पर क़ालीन बिछा है। दादी कहानी सुनाती हैं, और बच्चे चुपचाप सुनते हैं।";
